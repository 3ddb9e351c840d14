// Fields whose values may be refused.
ghost use Rattle.std.specs.Prelude.{◌≡◌};
ghost use Rattle.std.specs.Result.{result_err};
ghost use Rattle.xs_markers.specs.Values.{exactly, fields_fault, tested, within};

use xs_faults::{HeadFault, HeadField};

/// A field, its value, and whether that is refused.
#[derive(Clone, Copy)]
pub struct FieldRule {
    pub refused: bool,
    pub field: HeadField,
    pub value: u32,
}

/// A field whose value has to pass a test.
pub fn tested(field: HeadField, passed: bool, value: u32) -> FieldRule
    ensures { result ≡ tested field passed value }
{
    FieldRule {
        refused: !passed,
        field,
        value,
    }
}

/// A field whose value must be one of `low` to `high`.
pub fn within(field: HeadField, low: u32, high: u32, value: u32) -> FieldRule
    ensures { result ≡ within field low high value }
{
    tested(field, low <= value && value <= high, value)
}

/// A field that must have one value.
pub fn exactly(field: HeadField, wanted: u32, value: u32) -> FieldRule
    ensures { result ≡ exactly field wanted value }
{
    tested(field, value == wanted, value)
}

/// Refuses the first field whose value is refused.
#[tactic(auto, unfolding(crate::specs::Values::fields_fault))]
pub fn first_refused(rules: &[FieldRule]) -> Result<(), HeadFault>
    ensures first { result_err result ≡ fields_fault rules.now }
{
    'rules: for rule in rules {
        if rule.refused {
            return Err(HeadFault::Unsupported {
                field: rule.field,
                value: rule.value,
            });
        }
    }
    Ok(())
}
