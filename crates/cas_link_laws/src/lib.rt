//! Laws of linking: what is true of objects that aren't refused and of their image, and that the lock object is sound
//! on such an image.
#![tactic(auto)]

mod laws;

pub use laws::{
    functions_stand_together, linked_images_have_the_lock, lock_stands_first,
    threads_begin_at_entries, unrefused_objects_fit, words_are_initial, words_stand_apart,
};
