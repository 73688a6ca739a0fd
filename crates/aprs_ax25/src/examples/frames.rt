//! Worked examples of frames, and near misses.
ghost use Rattle.std.specs.Prelude.{◌≡◌, [], ◌∷◌, ◌++◌, None, Some, false, codes};
ghost use Rattle.aprs_ax25.specs.declared.fault.FrameFault.TheVariants.{Address, Callsign, Control, Pid, NoInfo, LongInfo};
ghost use Rattle.aprs_ax25.specs.declared.fault.MakeFault.TheVariants as make;
ghost use Rattle.aprs_ax25.specs.Frame.{FrameOf, spelling};
ghost use Rattle.aprs_ax25.specs.FrameFault.{frame_fault, parts_of, address_of};
ghost use Rattle.aprs_ax25.specs.Hop.{hop_of};
ghost use Rattle.aprs_ax25.specs.Making.{made_parts, hop_address, make_fault};
ghost use Rattle.aprs_ax25.specs.Examples.{nj7p, n7lem, n7oo, to_nj7p, from_n7lem, no_callsign, by_n7oo, hi_after, direct_field, direct_frame, repeated_frame, parts_through, through_n7oo, field_through, letters_a};

/// The frames that AX.25 2.2 shows in section 3.12, as UI frames. There they are I frames, control
/// 3E, which APRS doesn't have.
pub fn frames_are_as_the_standard_shows_them()
    ensures direct { FrameOf (parts_through []) direct_frame }
    ensures repeated { FrameOf (parts_through (hop_address through_n7oo ∷ [])) repeated_frame }
    ensures reads_direct { parts_of direct_frame ≡ parts_through [] }
    ensures reads_repeated { parts_of repeated_frame
        ≡ parts_through (hop_address through_n7oo ∷ []) }

    ensures misses_i_frame { frame_fault (direct_field ++ hi_after 0x3E 0xF0) ≡ Some Control }
    ensures misses_poll { frame_fault (direct_field ++ hi_after 0x13 0xF0) ≡ Some Control }
    ensures misses_other_pid { frame_fault (direct_field ++ hi_after 0x03 0xCF) ≡ Some Pid }
    ensures misses_last_bit { frame_fault (to_nj7p ++ from_n7lem 0x60 ++ hi_after 0x03 0xF0)
        ≡ Some Address }
    ensures misses_early_bit { frame_fault (to_nj7p ++ from_n7lem 0x61 ++ by_n7oo 0xE3
        ++ hi_after 0x03 0xF0) ≡ Some Control }
    ensures misses_space { frame_fault (to_nj7p ++ no_callsign 0x61 ++ hi_after 0x03 0xF0)
        ≡ Some Callsign }
{}

/// A frame has at most 8 digipeaters, and 1 to 256 bytes of information.
pub fn frames_have_limits()
    ensures eight { frame_fault (field_through 7 ++ hi_after 0x03 0xF0) ≡ None }
    ensures misses_nine { frame_fault (field_through 8 ++ hi_after 0x03 0xF0) ≡ Some Address }

    ensures most { frame_fault (direct_field ++ 0x03 ∷ 0xF0 ∷ letters_a 256) ≡ None }
    ensures misses_more { frame_fault (direct_field ++ 0x03 ∷ 0xF0 ∷ letters_a 257)
        ≡ Some LongInfo }
    ensures misses_no_info { frame_fault (direct_field ++ 0x03 ∷ 0xF0 ∷ []) ≡ Some NoInfo }

    ensures made { make_fault 8 256 ≡ None }
    ensures misses_hops { make_fault 9 0 ≡ Some make.Hops }
    ensures misses_none { make_fault 8 0 ≡ Some make.NoInfo }
    ensures misses_long { make_fault 8 257 ≡ Some make.LongInfo }
{}

/// Bytes with two faults or more are refused for the first of them: address field, callsign,
/// control, PID, information.
pub fn first_faults_count()
    ensures misses_all { frame_fault (to_nj7p ++ no_callsign 0x60 ++ 0x13 ∷ 0xCF ∷ [])
        ≡ Some Address }
    ensures misses_callsign { frame_fault (to_nj7p ++ no_callsign 0x61 ++ 0x13 ∷ 0xCF ∷ [])
        ≡ Some Callsign }
    ensures misses_control { frame_fault (direct_field ++ 0x13 ∷ 0xCF ∷ []) ≡ Some Control }
    ensures misses_pid { frame_fault (direct_field ++ 0x03 ∷ 0xCF ∷ []) ≡ Some Pid }
    ensures misses_long_pid { frame_fault (direct_field ++ 0x03 ∷ 0xCF ∷ letters_a 257)
        ≡ Some Pid }
{}

/// A frame is made as a command: the destination's C bit is 1, and the source's 0.
pub fn frames_are_made_as_commands()
    ensures direct { spelling (made_parts nj7p n7lem [] (codes ">Hi")) ≡ direct_frame }
    ensures repeated { spelling (made_parts nj7p n7lem (through_n7oo ∷ []) (codes ">Hi"))
        ≡ repeated_frame }
    ensures misses_response { spelling (made_parts nj7p n7lem [] (codes ">Hi"))
        ≡ to_nj7p ++ from_n7lem 0xE1 ++ hi_after 0x03 0xF0 → ⊥ }
    ensures misses_h_bit { spelling (made_parts nj7p n7lem (through_n7oo ∷ []) (codes ">Hi"))
        ≡ to_nj7p ++ from_n7lem 0x60 ++ by_n7oo 0x63 ++ hi_after 0x03 0xF0 → ⊥ }
{}

/// A digipeater has repeated the frame where its H bit is 1, the high bit of its last octet (AX.25
/// 2.2, section 3.12.5), whatever the reserved bits and the extension bit are.
pub fn the_h_bit_alone_tells_repeats()
    ensures others_0 { hop_of (address_of (by_n7oo 0x82)) ≡ through_n7oo }
    ensures others_1 { hop_of (address_of (by_n7oo 0xE3)) ≡ through_n7oo }
    ensures misses_others_0 { hop_of (address_of (by_n7oo 0x02))
        ≡ record { call = n7oo; repeated = false } }
    ensures misses_others_1 { hop_of (address_of (by_n7oo 0x63))
        ≡ record { call = n7oo; repeated = false } }
{}
