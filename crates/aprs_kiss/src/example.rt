//! The examples of the KISS paper, and near misses.
ghost use Rattle.std.specs.Prelude.{◌≡◌, [], ◌∷◌, ◌++◌, Ok, Err, codes};
ghost use Rattle.aprs_kiss.specs.Spelling.{kiss_text};
ghost use Rattle.aprs_kiss.specs.Stream.{judgements_of};
ghost use Rattle.aprs_kiss.specs.declared.fault.PassFault.TheVariants.{BadEscape, NotData};

/// `TEST` goes out of port 0 between two frame ends, after a type byte of 0. Before the second
/// frame end nothing is judged.
pub fn test_goes_to_port_0()
    ensures sent { kiss_text (codes "TEST") ≡ 0xC0 ∷ 0x00 ∷ 0x54 ∷ 0x45 ∷ 0x53 ∷ 0x54 ∷ 0xC0 ∷ [] }
    ensures judged { judgements_of (0xC0 ∷ 0x00 ∷ 0x54 ∷ 0x45 ∷ 0x53 ∷ 0x54 ∷ 0xC0 ∷ [])
        ≡ Ok (record { port = 0; bytes = codes "TEST" }) ∷ [] }
    ensures misses_end { judgements_of (0xC0 ∷ 0x00 ∷ 0x54 ∷ 0x45 ∷ 0x53 ∷ 0x54 ∷ []) ≡ [] }
{}

/// `Hello` goes out of port 5, which the high four bits of the type byte 50 name. The type byte
/// 05 names command 5, which is no data frame.
pub fn hello_goes_to_port_5()
    ensures judged { judgements_of (0xC0 ∷ 0x50 ∷ codes "Hello" ++ 0xC0 ∷ [])
        ≡ Ok (record { port = 5; bytes = codes "Hello" }) ∷ [] }
    ensures misses_port { judgements_of (0xC0 ∷ 0x05 ∷ codes "Hello" ++ 0xC0 ∷ [])
        ≡ Err NotData ∷ [] }
{}

/// The bytes C0 and DB go out as DB DC and DB DD. DB before any other byte is a bad escape.
pub fn special_bytes_are_escaped()
    ensures sent { kiss_text (0xC0 ∷ 0xDB ∷ [])
        ≡ 0xC0 ∷ 0x00 ∷ 0xDB ∷ 0xDC ∷ 0xDB ∷ 0xDD ∷ 0xC0 ∷ [] }
    ensures judged { judgements_of (0xC0 ∷ 0x00 ∷ 0xDB ∷ 0xDC ∷ 0xDB ∷ 0xDD ∷ 0xC0 ∷ [])
        ≡ Ok (record { port = 0; bytes = 0xC0 ∷ 0xDB ∷ [] }) ∷ [] }
    ensures misses_escape { judgements_of (0xC0 ∷ 0x00 ∷ 0xDB ∷ 0x54 ∷ 0xC0 ∷ [])
        ≡ Err BadEscape ∷ [] }
{}

/// FF, by which a TNC leaves KISS mode, is no data frame.
pub fn leaving_kiss_mode_is_no_data()
    ensures judged { judgements_of (0xC0 ∷ 0xFF ∷ 0xC0 ∷ []) ≡ Err NotData ∷ [] }
{}
