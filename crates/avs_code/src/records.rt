// What a reader of records answers where a block stands for no value.
ghost use Rattle.std.specs.Prelude.{◌≡◌, ◌<◌, ◌^◌, length, IfSome, MatchResult};
ghost use Rattle.avs_code.specs.Rules.{first_broken};

/// The number of the first field that breaks its rule.
///
/// The fields of a record are numbered from 0, the magic bytes, in the order in which they lie in the
/// block. The last number is that of the bytes which belong to no field.
#[derive(Clone, Copy, Debug, PartialEq, Eq)]
pub struct BadRecord(pub u32);

/// The greatest session, place, mark and stamp.
pub const MAX_NUMBER: u64 = 1 << 62;

// The place of the first rule that does not hold.
fn first_broken(rules: &[bool]) -> Option<usize>
    ensures place { result ≡ first_broken rules.now }
    ensures within { IfSome result (λ i. i < length rules.now) }
{
    rules.iter().position(|&holds| !holds)
}

/// Refuses the first field whose rule does not hold; `rules` has one answer a field.
pub fn check(rules: &[bool]) -> Result<(), BadRecord>
    requires { length rules.now < 2 ^ 32 }
    ensures { MatchResult result (λ _. first_broken rules.now ≡ None) (λ e. first_broken rules.now ≡ Some e.0) }
{
    match first_broken(rules) {
        Some(field) => Err(BadRecord(field as u32)),
        None => Ok(()),
    }
}
