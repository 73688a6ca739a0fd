//! Laws. Their functions do nothing: what they ensure is the law.
ghost use Rattle.std.specs.Prelude.{◌≡◌};
ghost use Rattle.aprs_io.specs.Input.{most_input};
ghost use Rattle.aprs_io.specs.declared.input.TheConstants.{MAX_INPUT};

/// `MAX_INPUT` is 1 GiB.
pub fn inputs_have_at_most_one_gibibyte()
    ensures { MAX_INPUT ≡ most_input }
{}
