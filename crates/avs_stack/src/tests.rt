use crate::{Roles, Stack};
use std::alloc::Global;
use std::fmt::Debug;
use std::process::Abort;

fn same<T: PartialEq + Debug + Drop>(rt: &impl Abort, found: T, want: T) {
    assert_eq!(rt; found, want);
}

fn add(rt: &impl Abort, alloc: Global, stack: &mut Stack, name: &str, number: u32) -> bool {
    stack.add(alloc, name, number).expect(rt, "memory")
}

// The name at a place is this one.
fn is_at(rt: &impl Abort, stack: &Stack, at: u32, want: &str) {
    let found = stack.name_at(at).unwrap_or("none");
    assert!(rt; found == want);
}

#[test]
fn names_stand_in_order_of_making(rt: HostRuntime) {
    let alloc = rt.alloc();
    let mut stack = Stack::new(alloc);
    same(&rt, stack.name_at(0).is_none(), true);
    same(&rt, add(&rt, alloc, &mut stack, "/v/b", 7), true);
    same(&rt, add(&rt, alloc, &mut stack, "/v/a", 3), true);
    same(&rt, add(&rt, alloc, &mut stack, "/v/c", 7), true);
    same(&rt, add(&rt, alloc, &mut stack, "/v/a", 9), false);
    same(&rt, stack.find("/v/a"), Some(3));
    same(&rt, stack.find("/v"), None);
    is_at(&rt, &stack, 0, "/v/b");
    is_at(&rt, &stack, 1, "/v/a");
    is_at(&rt, &stack, 3, "none");
    same(&rt, stack.place("/v/b"), Some(0));
    same(&rt, stack.place("/v/a"), Some(1));
    same(&rt, stack.place("/v/d"), None);
    same(&rt, stack.remove("/v/b"), Some(7));
    same(&rt, stack.remove("/v/b"), None);
    same(&rt, stack.len(), 2);
    is_at(&rt, &stack, 0, "/v/a");
    is_at(&rt, &stack, 1, "/v/c");
    same(&rt, add(&rt, alloc, &mut stack, "/v/b", 1), true);
    is_at(&rt, &stack, 2, "/v/b");
}

#[test]
fn roles_go_with_the_name(rt: HostRuntime) {
    let alloc = rt.alloc();
    let mut stack = Stack::new(alloc);
    let away = Roles {
        away: Some(5),
        imported: true,
        ..Roles::none()
    };
    same(&rt, stack.set_roles("/v/a", away), false);
    same(&rt, add(&rt, alloc, &mut stack, "/v/a", 0), true);
    same(&rt, add(&rt, alloc, &mut stack, "/v/b", 1), true);
    same(&rt, stack.roles("/v/a"), Some(Roles::none()));
    same(&rt, stack.set_roles("/v/a", away), true);
    same(&rt, stack.roles("/v/a"), Some(away));
    same(&rt, stack.roles("/v/b"), Some(Roles::none()));
    same(&rt, stack.find("/v/a"), Some(0));
    same(&rt, stack.remove("/v/a"), Some(0));
    same(&rt, stack.roles("/v/a"), None);
    same(&rt, add(&rt, alloc, &mut stack, "/v/a", 2), true);
    same(&rt, stack.roles("/v/a"), Some(Roles::none()));
}
