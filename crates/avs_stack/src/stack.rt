// The names of a host.
ghost use Rattle.std.specs.Prelude.{◌≡◌, [], IfOk, IfSome, OnOk, OnErr, false, is_some, length, not, slice_get};
ghost use Rattle.std.specs.Option.{option_copied, option_map};
ghost use Rattle.avs_stack.specs.Names.{AreApart, has_name, named_in, number_of, roles_of, with_name, with_roles, without_name};

use crate::roles::Roles;
use avs_seg::NoMemory;
use indexmap::IndexMap;
use std::alloc::Global;
use std::marker::Model;

// What is kept by a name.
#[derive(Clone, Copy, Drop)]
pub(crate) struct Kept {
    number: u32,
    roles: Roles,
}

/// The names of a host in order of making, each with a number that the caller gives it, and its roles.
#[derive(Drop)]
pub struct Stack {
    volumes: IndexMap<String, Kept>,
}

impl Model for Stack {
    ghost use Rattle.std.specs.Prelude.{List, map};
    ghost use Rattle.std.specs.String.{string_bytes};
    ghost use Rattle.avs_stack.specs.Names.{Named};

    ghost Value = { List Named };

    ghost use Rattle.avs_stack.specs.Kept.{named};

    ghost view = { λ s. map (named string_bytes) s.volumes.entries };
}

impl Stack {
    /// A stack without names.
    pub fn new(alloc: Global) -> Stack
        ensures { result ≡ [] }
    {
        Stack {
            volumes: IndexMap::new(alloc),
        }
    }

    /// How many names there are.
    pub fn len(&self) -> usize
        ensures count { result ≡ length self.now }
        ensures apart { AreApart self.now }
    {
        self.volumes.len()
    }

    /// A new name behind the others, without roles. The answer is false where the name is taken, which takes no memory.
    pub fn add(&mut self, alloc: Global, name: &str, number: u32) -> Result<bool, NoMemory>
        ensures answer { IfOk result (λ made. made ≡ not (has_name self.old name.now)) }
        ensures names { OnOk result (self.new ≡ with_name self.old name.now number) }
        ensures memory { OnErr result (has_name self.old name.now ≡ false) }
        ensures unchanged { OnErr result (self.new ≡ self.old) }
    {
        if self.volumes.contains_key(name) {
            return Ok(false);
        }
        let key = String::from_str(alloc, name)?;
        let roles = Roles::none();
        self.volumes.insert(key, Kept { number, roles })?;
        Ok(true)
    }

    /// The number of a name.
    pub fn find(&self, name: &str) -> Option<u32>
        ensures { result ≡ number_of self.now name.now }
    {
        self.volumes.get(name).map(|kept| kept.number)
    }

    /// The roles of a name.
    pub fn roles(&self, name: &str) -> Option<Roles>
        ensures { result ≡ roles_of self.now name.now }
    {
        self.volumes.get(name).map(|kept| kept.roles)
    }

    /// Gives a name these roles in the place of those that it has. The answer is false where there is no such name.
    pub fn set_roles(&mut self, name: &str, roles: Roles) -> bool
        ensures answer { result ≡ has_name self.old name.now }
        ensures names { self.new ≡ with_roles self.old name.now roles }
    {
        match self.volumes.get_mut(name) {
            Some(kept) => {
                kept.roles = roles;
                true
            }
            None => false,
        }
    }

    /// Takes a name out, with its roles, and gives its number. The others keep their order.
    pub fn remove(&mut self, name: &str) -> Option<u32>
        ensures number { result ≡ number_of self.old name.now }
        ensures names { self.new ≡ without_name self.old name.now }
    {
        self.volumes.shift_remove(name).map(|kept| kept.number)
    }

    /// The name at a place, counted from 0 in order of making.
    pub fn name_at(&self, at: u32) -> Option<&str>
        ensures { option_copied result ≡ option_map (λ volume. volume.name) (slice_get self.now at) }
    {
        let (name, _) = self.volumes.get_index(at as usize)?;
        Some(name.as_str())
    }

    /// The place of a name, counted from 0 in order of making.
    pub fn place(&self, name: &str) -> Option<usize>
        ensures found { is_some result ≡ has_name self.now name.now }
        ensures at { IfSome result (λ place. slice_get self.now place ≡ named_in self.now name.now) }
        ensures apart { AreApart self.now }
    {
        self.volumes.get_index_of(name)
    }
}
