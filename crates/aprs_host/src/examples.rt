//! Worked examples of a program's names, and near misses. Their functions do nothing.
ghost use Rattle.std.specs.Prelude.{◌≡◌, codes};
ghost use Rattle.aprs_host.specs.ProgramName as Spec;
ghost use Rattle.aprs_host.specs.declared.program_name.ProgramName.TheVariants as Name;

/// A name counts alone, and after the last slash of a path.
pub fn names_stand_last()
    ensures alone { Spec.program_name_of (codes "aprsbook-fold") ≡ Name.Fold }
    ensures after_a_slash { Spec.program_name_of (codes "/bin/aprsbook-table") ≡ Name.Table }
    ensures after_two { Spec.program_name_of (codes "./bin//aprsbook-history") ≡ Name.History }
    ensures its_own { Spec.program_name_of (codes "bin/aprsbook") ≡ Name.Book }
    ensures misses_a_folder { Spec.program_name_of (codes "aprsbook-fold/a") ≡ Name.Book }
{}

/// Whatever is none of the names stands for `aprsbook`.
pub fn others_are_the_first()
    ensures misses_a_letter { Spec.program_name_of (codes "aprsbook-folds") ≡ Name.Book }
    ensures misses_a_part { Spec.program_name_of (codes "fold") ≡ Name.Book }
    ensures misses_a_low_line { Spec.program_name_of (codes "aprsbook_table") ≡ Name.Book }
    ensures none { Spec.program_name_of (codes "") ≡ Name.Book }
    ensures a_root { Spec.program_name_of (codes "/") ≡ Name.Book }
{}
