//! Worked examples of how a run ends. Their functions do nothing.
ghost use Rattle.std.specs.Prelude.{◌≡◌, [], Err, Ok, codes};
ghost use Rattle.aprs_log.specs.declared.fault.LogCause.TheVariants as log;
ghost use Rattle.aprs_bookfile.specs.declared.fault.BookCause.TheVariants as book;
ghost use Rattle.aprs_runs.specs.declared.fault.InputFault.TheVariants as input;
ghost use Rattle.aprs_runs.specs.declared.fault.RunFault.TheVariants as run;
ghost use Rattle.aprs_web.specs.Examples.{at_input, book_at, log_at, told};

/// What a host reads of how a run ended: the exit status, the number of the input at fault from 0,
/// the line that its fault names, and the fault's name. The numbers are 0 and the name is empty
/// where no input is at fault. Where the fault of an input names no line, this is 0 too.
pub fn ends_are_told()
    ensures line_of_a_log { told (at_input 2 (log_at 7 log.Hex)) ≡ (1, 2, 7, codes "Hex") }
    ensures memory_at_a_line { told (at_input 2 (log_at 7 log.Memory))
        ≡ (4, 2, 7, codes "Memory") }
    ensures stream { told (at_input 2 (log_at 0 log.Read)) ≡ (1, 2, 0, codes "Read") }
    ensures line_of_a_book { told (at_input 2 (book_at 3 book.Order)) ≡ (1, 2, 3, codes "Order") }
    ensures memory_at_a_row { told (at_input 2 (book_at 3 book.Memory))
        ≡ (4, 2, 3, codes "Memory") }

    ensures memory_at_an_input { told (at_input 2 input.Memory) ≡ (4, 2, 0, codes "out of memory") }
    ensures other_gap { told (at_input 2 input.OtherGap) ≡ (1, 2, 0, codes "other gap") }
    ensures narrower { told (at_input 2 input.Narrower) ≡ (1, 2, 0, codes "narrower") }

    ensures well { told (Ok tt) ≡ (0, 0, 0, []) }
    ensures output { told (Err run.Write) ≡ (3, 0, 0, []) }
    ensures memory { told (Err run.Memory) ≡ (4, 0, 0, []) }
{}
