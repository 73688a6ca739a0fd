//! The names of the program.
ghost use Rattle.std.specs.Prelude.{◌≡◌};
ghost use Rattle.aprs_host.specs.ProgramName as Spec;

use std::path::Path;

/// A name of the program. The one by which it is called says which arguments it takes.
#[derive(Clone, Copy)]
pub enum ProgramName {
    /// `aprsbook`, which checks, converts, merges, widens and lists.
    Book,
    /// `aprsbook-history`, which writes a history.
    History,
    /// `aprsbook-table`, which writes a table.
    Table,
    /// `aprsbook-fold`, which folds book files.
    Fold,
}

impl ProgramName {
    /// The name by which a program is called whose path this is: the path's last component. It is
    /// `aprsbook` where that component is none of the names. Takes no memory.
    pub fn of(path: &str) -> ProgramName
        ensures { result ≡ Spec.program_name_of path.now }
    {
        match Path::new(path).file_name() {
            Some("aprsbook-history") => ProgramName::History,
            Some("aprsbook-table") => ProgramName::Table,
            Some("aprsbook-fold") => ProgramName::Fold,
            _ => ProgramName::Book,
        }
    }

    /// The text of the name. Takes no memory.
    pub fn text(self) -> &'static str
        ensures { result.now ≡ Spec.text_of self }
    {
        match self {
            ProgramName::Book => "aprsbook",
            ProgramName::History => "aprsbook-history",
            ProgramName::Table => "aprsbook-table",
            ProgramName::Fold => "aprsbook-fold",
        }
    }
}
