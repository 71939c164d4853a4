// What a host keeps outside its groups.
ghost use Rattle.std.specs.Prelude.{◌≡◌, IsTrue, IfErr, None, OnErr, OnOk, Some, [], false, if◌then◌else◌};
ghost use Rattle.std.specs.Option.{option_map};
ghost use Rattle.avs_model.specs.declared.answer.Refusal.TheVariants.{Exists, NoMemory};
ghost use Rattle.avs_stack.specs.Names.{has_name};
ghost use Rattle.avs_host.specs.Facts.{resting_facts};
ghost use Rattle.avs_host.specs.Store.{ArmsResting, disk_of, is_resting, names_of, with_disk, with_given, with_volume, without_volume, written_of};

use crate::facts::facts_with;
use crate::resting::{arm, place_of};
use avs_dev::{Arm, Back, Disk, Tear};
use avs_model::{Refusal, VolumeFacts};
use avs_stack::{Roles, Stack};
use std::alloc::Global;
use std::marker::Model;

/// One disk, handed back, and why.
pub type Returned<D> = Back<D, Refusal>;

/// What a host keeps outside its groups: its volumes in order of making, each with its number, its roles, and its disk where that
/// is at rest; and the stamp that it gives next.
#[derive(Drop)]
pub struct HostStore<D: Disk> {
    stack: Stack,
    // The disk of each name, at the name's place.
    disks: Vec<Option<D>>,
    stamp: u64,
}

impl<D: Disk> Model for HostStore<D> {
    ghost use Rattle.std.specs.Prelude.{◌≡◌, length};
    ghost use Rattle.avs_host.specs.Store.{StoreSeen, volumes_with};

    ghost Value = { StoreSeen };

    ghost view = { λ s. record { volumes = volumes_with D.seen s.stack s.disks.items; stamp = s.stamp } };

    ghost invariant = { λ s. length s.disks.items ≡ length s.stack };
}

impl<D: Disk> HostStore<D> {
    /// A store without volumes. Takes no memory.
    pub fn new(alloc: Global, stamp: u64) -> HostStore<D>
        ensures { result ≡ record { volumes = []; stamp = stamp } }
    {
        HostStore {
            stack: Stack::new(alloc),
            disks: Vec::new(alloc),
            stamp,
        }
    }

    /// The names, with their numbers and roles.
    pub fn stack(&self) -> &Stack
        ensures { result.now ≡ names_of self.now }
    {
        &self.stack
    }

    /// The stamp that is given next.
    pub fn stamp(&self) -> u64
        ensures { result ≡ self.now.stamp }
    {
        self.stamp
    }

    /// Gives a name these roles in the place of those that it has. The answer is false where there is no such name.
    pub fn set_roles(&mut self, name: &str, roles: Roles) -> bool
        ensures answer { result ≡ has_name (names_of self.old) name.now }
        ensures given { self.new ≡ with_given self.old name.now roles }
    {
        self.stack.set_roles(name, roles)
    }

    /// A new volume behind the others, without roles, with its disk at rest. `Exists` where the name is taken, which takes no
    /// memory.
    pub fn add(
        &mut self,
        alloc: Global,
        name: &str,
        number: u32,
        disk: D,
    ) -> Result<(), Returned<D>>
        ensures free { OnOk result (has_name (names_of self.old) name.now ≡ false) }
        ensures added { OnOk result (self.new ≡ with_volume self.old name.now number (D.seen disk)) }
        ensures cause { IfErr result (λ e. e.why ≡ (if has_name (names_of self.old) name.now then Exists else NoMemory)) }
        ensures back { IfErr result (λ e. e.parts ≡ disk) }
        ensures kept { OnErr result (self.new ≡ self.old) }
    {
        if self.stack.place(name).is_some() {
            return Err(Back {
                parts: disk,
                why: Refusal::Exists,
            });
        }
        let Ok(()) = self.disks.reserve(1) else {
            return Err(Back {
                parts: disk,
                why: Refusal::NoMemory,
            });
        };
        let Ok(_) = self.stack.add(alloc, name, number) else {
            return Err(Back {
                parts: disk,
                why: Refusal::NoMemory,
            });
        };
        self.disks.push_reserved(Some(disk));
        Ok(())
    }

    /// Takes the disk of a name out, and leaves the name. The answer is None where that disk is not at rest.
    pub fn take(&mut self, name: &str) -> Option<D>
        ensures disk { option_map D.seen result ≡ disk_of self.old name.now }
        ensures taken { self.new ≡ with_disk self.old name.now None }
        ensures free { disk_of self.new name.now ≡ None }
    {
        let place = self.stack.place(name)?;
        self.disks[place].take()
    }

    /// Puts the disk of a name back. Takes no memory.
    pub fn put(&mut self, name: &str, disk: D)
        requires there { IsTrue (has_name (names_of self.old) name.now) }
        requires free { disk_of self.old name.now ≡ None }
        ensures { self.new ≡ with_disk self.old name.now (Some (D.seen disk)) }
    {
        let place = self.stack.place(name).unwrap();
        self.disks[place] = Some(disk);
    }

    /// Takes a volume out, with its roles. The answer is None where its disk is not at rest, and then nothing changed.
    pub fn remove(&mut self, name: &str) -> Option<D>
        ensures disk { option_map D.seen result ≡ disk_of self.old name.now }
        ensures gone { self.new ≡ (if is_resting self.old name.now then without_volume self.old name.now else self.old) }
    {
        let place = self.stack.place(name)?;
        if self.disks[place].is_none() {
            return None;
        }
        self.stack.remove(name);
        self.disks.remove(place)
    }

    /// How many blocks the disk of a name has. The answer is None where that disk is not at rest.
    pub fn blocks(&self, name: &str) -> Option<u32>
        ensures { result ≡ option_map (λ disk. disk.size) (disk_of self.now name.now) }
    {
        let place = self.stack.place(name)?;
        match &self.disks[place] {
            Some(resting) => Some(resting.blocks()),
            None => None,
        }
    }

    /// What refusals ask of the volume of a name, while no import uses it and its disk is at rest.
    pub fn facts(&self, name: &str) -> VolumeFacts
        ensures { result ≡ resting_facts self.now name.now }
    {
        let blocks = self.blocks(name).unwrap_or(0);
        facts_with(self.stack.roles(name), blocks)
    }

    /// How many blocks have been written on a disk at rest. They are numbered from 0 in order of making.
    pub fn written(&self, disk: u32) -> Option<u64>
        ensures { result ≡ written_of self.now disk }
    {
        let place = place_of(&self.disks, disk)?;
        match &self.disks[place] {
            Some(resting) => Some(resting.written()),
            None => None,
        }
    }

    /// Arms a tear on a disk at rest, by the same numbers.
    pub fn arm(&mut self, disk: u32, tear: Tear) -> bool
    where
        D: Arm,
        ensures { ArmsResting self.old disk tear result self.new }
    {
        if self.stack.len() <= disk as usize {
            return false;
        }
        match place_of(&self.disks, disk) {
            Some(place) => arm(&mut self.disks[place], tear),
            None => false,
        }
    }
}
