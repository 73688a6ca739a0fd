//! Worked examples of bytes that can be read at any place, and near misses. The functions do
//! nothing.
ghost use Rattle.std.specs.Prelude.{◌≡◌, [], None, Some, Ok, Err, codes};
ghost use Rattle.aprs_fold.specs.ReadAt.{GivesAt, HasSize};

/// The size is that of all bytes, where they are known and it is answered.
pub fn sizes_count_all_bytes()
    ensures size { HasSize {E = Unit {0}} (Some (codes "abc")) (Ok 3) }
    ensures misses_less { HasSize {E = Unit {0}} (Some (codes "abc")) (Ok 2) → ⊥ }
    ensures misses_more { HasSize {E = Unit {0}} (Some (codes "abc")) (Ok 4) → ⊥ }
    ensures unknown { HasSize {E = Unit {0}} None (Ok 2) }
    ensures failed { HasSize {E = Unit {0}} (Some (codes "abc")) (Err tt) }
{}

/// A read gives bytes from its place on, as many as it answers. It gives none at the end alone, or
/// where there is no room.
pub fn reads_give_bytes_at_a_place()
    ensures all { GivesAt {E = Unit {0}} (Some (codes "abc")) 1 (Ok 2) (codes "bcx") }
    ensures some { GivesAt {E = Unit {0}} (Some (codes "abc")) 1 (Ok 1) (codes "bx") }
    ensures end { GivesAt {E = Unit {0}} (Some (codes "abc")) 3 (Ok 0) (codes "x") }
    ensures no_room { GivesAt {E = Unit {0}} (Some (codes "abc")) 1 (Ok 0) [] }
    ensures misses_place { GivesAt {E = Unit {0}} (Some (codes "abc")) 0 (Ok 1) (codes "b") → ⊥ }
    ensures misses_past_the_end { GivesAt {E = Unit {0}} (Some (codes "abc")) 2 (Ok 2) (codes "cx")
        → ⊥ }
    ensures misses_none { GivesAt {E = Unit {0}} (Some (codes "abc")) 1 (Ok 0) (codes "x") → ⊥ }
{}
