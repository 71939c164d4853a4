// Disks of which some are at rest.
ghost use Rattle.std.specs.Prelude.{◌≡◌, ◌≤◌, IfSome, IfNone, length};
ghost use Rattle.avs_host.specs.Resting.{IsNumbered, ArmsOne, disks_in};

use avs_dev::{Arm, Tear};

/// The place of the disk of a number, counted from 0 among those at rest.
pub(crate) fn place_of<D>(disks: &[Option<D>], number: u32) -> Option<usize>
    ensures found { IfSome result (λ place. IsNumbered disks.now number place) }
    ensures none { IfNone result (length (disks_in disks.now) ≤ number) }
{
    let mut before = 0;
    for place in 0..disks.len() {
        if disks[place].is_none() {
            continue;
        }
        if before == number {
            return Some(place);
        }
        before += 1;
    }
    None
}

/// Arms a tear on a disk that is at rest. The answer is false where it is not, and where it can't be armed.
pub(crate) fn arm<D: Arm>(disk: &mut Option<D>, tear: Tear) -> bool
    ensures { ArmsOne D.seen disk.old tear result disk.new }
{
    match disk {
        Some(resting) => resting.arm(tear),
        None => false,
    }
}
