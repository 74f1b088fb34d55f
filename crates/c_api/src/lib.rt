// The library for C. The structs are those of include/dp8.h, with the same fields in the same order; the functions have the names that
// C calls them by. A replica is the caller's, and is lent as its words: C's struct of uint32_t fields.
#![tactic(auto)]

mod listings;
mod reading;
mod replicas;
mod snapshots;
mod writing;

pub use listings::dp8_listing;
pub use reading::dp8_read;
pub use replicas::{
    dp8_name_characters, dp8_replica_batch, dp8_replica_deliver, dp8_replica_fresh,
    dp8_replica_is_valid, dp8_replica_next_host,
};
pub use snapshots::{dp8_snapshot_read, dp8_snapshot_write};
pub use writing::{
    dp8_write_add_player, dp8_write_add_to_group, dp8_write_connect_info, dp8_write_create_group,
    dp8_write_delete_from_group, dp8_write_destroy_group, dp8_write_destroy_player,
    dp8_write_request_add_to_group,
};
