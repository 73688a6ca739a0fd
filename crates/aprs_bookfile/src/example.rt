//! Worked examples of what is at fault in a text, and near misses. The functions do nothing.
ghost use Rattle.aprs_io.specs.declared.input.InputEnd.TheVariants.{End};
ghost use Rattle.aprs_bookfile.specs.Examples.{fault_in, miscounted_text, disordered_text, unfinished_text};
ghost use Rattle.aprs_bookfile.specs.TextFault.{HasBookFault};
ghost use Rattle.aprs_bookfile.specs.declared.fault.BookCause.TheVariants.{Ending, Memory, Order, RowSyntax, Span};

/// A line that begins with `END` is judged as the last line: with another number of rows it is
/// `Ending`, and not `RowSyntax`.
pub fn end_line_with_another_count_is_no_row()
    ensures ending { HasBookFault miscounted_text End (fault_in 2 Ending) }
    ensures misses_syntax { HasBookFault miscounted_text End (fault_in 2 RowSyntax) → ⊥ }
{}

/// Where an allocation failed, the fault is in the line that was being read. This text stops in its
/// second line, so it isn't in a third.
pub fn memory_is_refused_in_a_line()
    ensures second { HasBookFault unfinished_text End (fault_in 2 Memory) }
    ensures misses_third { HasBookFault unfinished_text End (fault_in 3 Memory) → ⊥ }
{}

/// A row that doesn't come after the one before it, and ends before it begins, is `Order`.
pub fn order_comes_before_span()
    ensures order { HasBookFault disordered_text End (fault_in 3 Order) }
    ensures misses_span { HasBookFault disordered_text End (fault_in 3 Span) → ⊥ }
{}
