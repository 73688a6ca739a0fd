//! Worked examples of single fields, and near misses.
ghost use Rattle.std.specs.Prelude.{codes, drop, length, pos, neg_ℤ, take, true, false, None, Some, List, ℕ, ◌≡◌, ◌∷◌, ◌++◌, ◌-◌, []};
ghost use Rattle.aprs_details.specs.Examples.{Gives, car, compressed_place, here, one_and_two};
ghost use Rattle.aprs_details.specs.declared.precision.Scale.TheVariants.{Tenths};
ghost use Rattle.aprs_mice.specs.declared.mic_e_message.MicEMessage.TheVariants.{EnRoute};
ghost use Rattle.aprs_table.specs.Cells.{cell_text, tabbed_cell};
ghost use Rattle.aprs_table.specs.Examples.{lent_bytes};
ghost use Rattle.aprs_table.specs.FieldText.{field_text, spaced_field};
ghost use Rattle.aprs_table.specs.Shape.{IsField};
ghost use Rattle.aprs_table.specs.Table.{header_line};
ghost use Rattle.aprs_table.specs.declared.cell.Cell.TheVariants as Fields;
ghost use Rattle.aprs_table.specs.declared.field.Field.TheVariants as Spaced;
ghost use Rattle.aprs_report.specs.Examples.{stamp_with};

/// A field has neither a tab nor an LF; the bytes beside these may stand in it.
pub fn fields_have_no_tab()
    ensures beside { IsField (8 ∷ 11 ∷ []) }
    ensures misses_tab { IsField (97 ∷ 9 ∷ []) → ⊥ }
    ensures misses_lf { IsField (97 ∷ 10 ∷ []) → ⊥ }
{}

/// The names of columns have a tab between two, and end in LF.
pub fn names_of_columns_are_a_line()
    ensures first { take 11 header_line ≡ codes "kind" ++ 9 ∷ codes "first" ++ 9 ∷ [] }
    ensures last { drop (length header_line - 17) header_line
        ≡ 9 ∷ codes "finer_longitude" ++ 10 ∷ [] }
{}

/// Each field has a text of its own, also where two of them are of one place.
pub fn fields_have_texts()
    ensures plain { cell_text (Fields.Plain (lent_bytes (codes "\\"))) ≡ codes "\\" }
    ensures shown { cell_text (Fields.Shown (lent_bytes (codes "\\"))) ≡ codes "\\x5c" }
    ensures call { Gives (λ (ssid : ℕ). cell_text
        (Fields.Call (record { characters = codes "WU2Z"; ssid = ssid }))) (
        (0, codes "WU2Z") ∷
        (1, codes "WU2Z-1") ∷
        (15, codes "WU2Z-15") ∷ []) }
    ensures number { cell_text (Fields.Number (Some 40)) ≡ codes "40" }
    ensures below { cell_text (Fields.Signed (Some (neg_ℤ (pos 40)))) ≡ codes "-40" }
    ensures degrees { cell_text (Fields.Degrees (neg_ℤ (pos 12345678))) ≡ codes "-1.2345678" }
    ensures north { cell_text (Fields.Latitude (Some here)) ≡ codes "49.0583333" }
    ensures east { cell_text (Fields.Longitude (Some here)) ≡ codes "-72.0291667" }
    ensures ambiguity { cell_text (Fields.Ambiguity (Some here)) ≡ codes "0" }
    ensures ambiguity_of_compressed { cell_text
        (Fields.Ambiguity (Some (compressed_place (codes " sT")))) ≡ [] }
    ensures compressed { cell_text (Fields.Compressed (Some (compressed_place (codes " sT"))))
        ≡ codes "yes" }
    ensures misses_compressed { cell_text (Fields.Compressed (Some here)) ≡ codes "no" }
    ensures symbol { cell_text (Fields.Symbol (Some car)) ≡ codes "/>" }
    ensures altitude { cell_text (Fields.Altitude (Some (pos 3761232))) ≡ codes "376.1232" }
    ensures says { cell_text (Fields.Says (Some EnRoute)) ≡ codes "en-route" }
    ensures yes { cell_text (Fields.YesNo (Some true)) ≡ codes "yes" }
    ensures no { cell_text (Fields.YesNo (Some false)) ≡ codes "no" }
    ensures current { cell_text (Fields.Fix (Some true)) ≡ codes "current" }
    ensures old { cell_text (Fields.Fix (Some false)) ≡ codes "old" }
    ensures range { cell_text (Fields.Range (Some 2013)) ≡ codes "20.13" }
    ensures finer_north { cell_text
        (Fields.FinerLatitude (Some here) (Some (one_and_two Tenths false true)))
        ≡ codes "49.0583500" }
    ensures finer_east { cell_text
        (Fields.FinerLongitude (Some here) (Some (one_and_two Tenths false true)))
        ≡ codes "-72.0292000" }
    ensures unknown { cell_text (Fields.Number None) ≡ [] }
    ensures nowhere { cell_text (Fields.Latitude None) ≡ [] }
    ensures after_a_tab { tabbed_cell (Fields.YesNo None) ≡ 9 ∷ [] }
{}

/// Each field of a line of a history has a text of its own. A name there has no space.
pub fn spaced_fields_have_texts()
    ensures plain { field_text (Spaced.Plain (lent_bytes (codes "a b"))) ≡ codes "a b" }
    ensures word { field_text (Spaced.Word (lent_bytes (codes "a b"))) ≡ codes "a\\x20b" }
    ensures call { field_text (Spaced.Call (record { characters = codes "WU2Z"; ssid = 1 }))
        ≡ codes "WU2Z-1" }
    ensures count { field_text (Spaced.Count 40) ≡ codes "40" }
    ensures moment { field_text (Spaced.Moment 1714564800000) ≡ codes "2024-05-01T12:00:00.000Z" }
    ensures stamp { field_text (Spaced.Stamp (Some (stamp_with 122))) ≡ codes "092345z" }
    ensures no_stamp { field_text (Spaced.Stamp None) ≡ codes "-" }
    ensures degrees { field_text (Spaced.Degrees (record {
      numerator = neg_ℤ (pos 432175);
      denominator = pos 6000;
    })) ≡ codes "-432175/6000" }
    ensures ambiguity { field_text (Spaced.Ambiguity here) ≡ codes "0" }
    ensures compressed { field_text (Spaced.Ambiguity (compressed_place (codes " sT")))
        ≡ codes "c" }
    ensures symbol { field_text (Spaced.Symbol car) ≡ codes "/>" }
    ensures after_a_space { spaced_field (Spaced.Count 40) ≡ codes " 40" }
{}
