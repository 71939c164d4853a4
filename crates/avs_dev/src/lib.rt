//! Disks of blocks that write through, racks that make them, both in memory, and the volumes that a layer writes to.
#![tactic(auto)]

mod back;
mod bare;
mod below;
mod disk;
mod errand;
mod laws;
mod mem_disk;
mod mem_rack;
mod rack;

pub use back::{Back, Closed, Closed2, Why};
pub use bare::Bare;
pub use below::Below;
pub use disk::{Arm, Disk, Tear};
pub use errand::Errand;
pub use laws::{calls_follow_calls, disks_stay_beside_one};
pub use mem_disk::MemDisk;
pub use mem_rack::MemRack;
pub use rack::{Rack, RackFault};
