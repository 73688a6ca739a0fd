//! Laws of what is written. The functions do nothing: what they ensure is the law.
ghost use Rattle.std.specs.Prelude.{◌≡◌, ℕ, List, Option};
ghost use Rattle.aprs_log.specs.declared.InputEnd.{InputEnd};
ghost use Rattle.aprs_log.specs.declared.fault.LogFault.{LogFault};
ghost use Rattle.aprs_convert.specs.Check.{Checks};
ghost use Rattle.aprs_convert.specs.Conversion.{Converts};
ghost use Rattle.aprs_convert.specs.declared.form.Form.{Form};

/// Of whatever was got of an input, a conversion to one form writes exactly one text, and ends with
/// exactly one fault or with none.
pub fn one_text_is_converted()
    ensures some { (f : Form) (text : List ℕ) (ending : InputEnd)
        → (fault : Option LogFault) × (written : List ℕ) × Converts f fault text ending written }
    ensures one { (f : Form) (text : List ℕ) (ending : InputEnd) (fault other : Option LogFault)
        (written more : List ℕ) → Converts f fault text ending written
        → Converts f other text ending more → (fault ≡ other) × (written ≡ more) }
{}

/// Of whatever was got of an input, a check writes exactly one text, and ends with exactly one
/// fault or with none.
pub fn one_text_is_checked()
    ensures some { (text : List ℕ) (ending : InputEnd)
        → (fault : Option LogFault) × (written : List ℕ) × Checks fault text ending written }
    ensures one { (text : List ℕ) (ending : InputEnd) (fault other : Option LogFault)
        (written more : List ℕ) → Checks fault text ending written
        → Checks other text ending more → (fault ≡ other) × (written ≡ more) }
{}
