// Which refusal of a statement on a host, a volume or a disk is the first.
ghost use Rattle.std.specs.Prelude.{◌≡◌, not};
ghost use Rattle.std.specs.Bool.{then_some};
ghost use Rattle.avs_model.specs.declared.answer.Word.TheVariants.{Unarmed};
ghost use Rattle.avs_model.specs.declared.answer.Refusal.TheVariants.{WrongState};
ghost use Rattle.avs_model.specs.Rows.{first_row};
ghost use Rattle.avs_model.specs.HostRows.{make_rows, host_rows, recover_rows, word_rows, arm_early, move_rows, attach_tap_rows, drop_tap_rows, text_rows};

use crate::limits::{ALL_VOLUMES, LARGEST_VOLUME, LEAST_VOLUME, MOST_LINES, MOST_TEXTS};
use crate::roles::{has_no_role, tells_away};
use crate::rows::first_row;
use avs_model::{
    ArmFacts, AttachTapFacts, DropTapFacts, HostFacts, MakeFacts, MoveFacts, Refusal, TextFacts,
    Word,
};

/// The refusal of making a volume.
pub fn make_refusal(f: &MakeFacts) -> Option<Refusal>
    ensures { result ≡ first_row (make_rows f.now) }
{
    first_row(&mut [
        (!f.host.up).then_some(Refusal::Down(f.host.name)),
        f.taken.then_some(Refusal::Exists),
        (f.blocks < LEAST_VOLUME).then_some(Refusal::Size {
            need: LEAST_VOLUME,
            have: f.blocks,
        }),
        (f.blocks > LARGEST_VOLUME).then_some(Refusal::Limit(u64::from(LARGEST_VOLUME))),
        (u64::from(f.all_blocks) + u64::from(f.blocks) > u64::from(ALL_VOLUMES)).then_some(
            Refusal::Limit(u64::from(ALL_VOLUMES)),
        ),
    ])
}

/// The refusal of bringing a host down, of telling of its volumes and of telling its sets.
pub fn host_refusal(f: &HostFacts) -> Option<Refusal>
    ensures { result ≡ first_row (host_rows f.now) }
{
    first_row(&mut [(!f.up).then_some(Refusal::Down(f.name))])
}

/// The refusal of bringing a host up.
pub fn recover_refusal(f: &HostFacts) -> Option<Refusal>
    ensures { result ≡ first_row (recover_rows f.now) }
{
    first_row(&mut [f.up.then_some(Refusal::WrongState(Word::Up))])
}

/// The refusal of words that are no command from the one of that number on.
pub fn word_refusal(f: &HostFacts, word: u32) -> Option<Refusal>
    ensures { result ≡ first_row (word_rows f.now word) }
{
    first_row(&mut [
        (!f.up).then_some(Refusal::Down(f.name)),
        Some(Refusal::BadWord(word)),
    ])
}

/// The refusal of making a disk fail, before the disk is asked.
pub fn arm_refusal(f: &ArmFacts) -> Option<Refusal>
    ensures { result ≡ first_row (arm_early f.now) }
{
    first_row(&mut [
        (!f.host.up).then_some(Refusal::Down(f.host.name)),
        (!f.of_group && !f.there).then_some(Refusal::NoVolume),
        (f.of_group && !f.there).then_some(Refusal::NoGroup),
    ])
}

/// And by what the disk answered: whether it is armed.
pub fn unarmed_refusal(armed: bool) -> Option<Refusal>
    ensures { result ≡ then_some (not armed) (WrongState Unarmed) }
{
    (!armed).then_some(Refusal::WrongState(Word::Unarmed))
}

/// The refusal of moving a volume to the other host.
pub fn move_refusal(f: &MoveFacts) -> Option<Refusal>
    ensures { result ≡ first_row (move_rows f.now) }
{
    let (from, to, volume) = (f.from, f.to, f.volume);
    first_row(&mut [
        (!from.up).then_some(Refusal::Down(from.name)),
        (!to.up).then_some(Refusal::Down(to.name)),
        (!volume.there).then_some(Refusal::NoVolume),
        f.taken.then_some(Refusal::Exists),
        (!has_no_role(volume.role) && (volume.imported || !tells_away(volume.role))).then_some(
            Refusal::BusyVolume(volume.role),
        ),
    ])
}

/// The refusal of attaching a tap.
pub fn attach_tap_refusal(f: &AttachTapFacts) -> Option<Refusal>
    ensures { result ≡ first_row (attach_tap_rows f.now) }
{
    first_row(&mut [
        (!f.host.up).then_some(Refusal::Down(f.host.name)),
        (!f.there).then_some(Refusal::NoVolume),
        (!f.listed).then_some(Refusal::NoTap(f.tap)),
    ])
}

/// The refusal of dropping the last tap of a volume.
pub fn drop_tap_refusal(f: &DropTapFacts) -> Option<Refusal>
    ensures { result ≡ first_row (drop_tap_rows f.now) }
{
    first_row(&mut [
        (!f.host.up).then_some(Refusal::Down(f.host.name)),
        (!f.there).then_some(Refusal::NoVolume),
        (!f.attached).then_some(Refusal::NoTap(0)),
    ])
}

/// The refusal of one more line of a text.
pub fn text_refusal(f: &TextFacts) -> Option<Refusal>
    ensures { result ≡ first_row (text_rows f.now) }
{
    first_row(&mut [
        (f.is_new && f.texts >= MOST_TEXTS).then_some(Refusal::Limit(u64::from(MOST_TEXTS))),
        (f.lines >= MOST_LINES).then_some(Refusal::Limit(u64::from(MOST_LINES))),
    ])
}
