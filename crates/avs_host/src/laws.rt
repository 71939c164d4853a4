// What holds of every store.
ghost use Rattle.std.specs.Prelude.{◌≡◌, ℕ, List, None, Option, Some, false, true};
ghost use Rattle.std.specs.Str.{bytes_eq};
ghost use Rattle.avs_dev.specs.Seen.{Seen};
ghost use Rattle.avs_stack.specs.Names.{has_name, with_name, with_roles, without_name};
ghost use Rattle.avs_stack.specs.declared.roles.Roles.{Roles};
ghost use Rattle.avs_host.specs.Store.{StoreSeen, disk_of, names_of, with_disk, with_given, with_volume, without_volume};

/// A law: a disk that is given out or put back by a name changes no name, and no other disk. It makes no call.
pub fn a_disk_moves_alone()
    ensures names { (store : StoreSeen) (name : List ℕ) (disk : Option Seen)
        → names_of (with_disk store name disk) ≡ names_of store }
    ensures own { (store : StoreSeen) (name : List ℕ) (disk : Option Seen)
        → has_name (names_of store) name ≡ true → disk_of (with_disk store name disk) name ≡ disk }
    ensures others { (store : StoreSeen) (name other : List ℕ) (disk : Option Seen)
        → bytes_eq other name ≡ false → disk_of (with_disk store name disk) other ≡ disk_of store other }
{}

/// A law: a new volume of a free name comes behind the others. It makes no call.
pub fn a_volume_comes_alone()
    ensures names { (store : StoreSeen) (name : List ℕ) (number : ℕ) (disk : Seen)
        → has_name (names_of store) name ≡ false
        → names_of (with_volume store name number disk) ≡ with_name (names_of store) name number }
    ensures own { (store : StoreSeen) (name : List ℕ) (number : ℕ) (disk : Seen)
        → has_name (names_of store) name ≡ false → disk_of (with_volume store name number disk) name ≡ Some disk }
    ensures others { (store : StoreSeen) (name other : List ℕ) (number : ℕ) (disk : Seen)
        → bytes_eq other name ≡ false → disk_of (with_volume store name number disk) other ≡ disk_of store other }
{}

/// A law: a volume that is taken out takes its name and its disk along, and no others. It makes no call.
pub fn a_volume_leaves_alone()
    ensures names { (store : StoreSeen) (name : List ℕ)
        → names_of (without_volume store name) ≡ without_name (names_of store) name }
    ensures own { (store : StoreSeen) (name : List ℕ) → disk_of (without_volume store name) name ≡ None }
    ensures others { (store : StoreSeen) (name other : List ℕ)
        → bytes_eq other name ≡ false → disk_of (without_volume store name) other ≡ disk_of store other }
{}

/// A law: roles that are given to a name change no disk. It makes no call.
pub fn roles_change_alone()
    ensures names { (store : StoreSeen) (name : List ℕ) (roles : Roles)
        → names_of (with_given store name roles) ≡ with_roles (names_of store) name roles }
    ensures disks { (store : StoreSeen) (name other : List ℕ) (roles : Roles)
        → disk_of (with_given store name roles) other ≡ disk_of store other }
{}
