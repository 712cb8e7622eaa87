//! Redirects the references of planned objects in a heap of a host's own layout, where the words lie.
//!
//! [`redirect_objects`] does so by the plan of a slide of opaque objects, before it begins. The laws say what comes of it:
//! marked objects, redirected in place and then slid as they are, have the graph that they had.
//!
//! **Proved**: each word afterwards, for any words of the heap; the laws, for any numbers of a layout that fit each other. No call
//! allocates memory. How fast they are is neither proved nor tested.
#![tactic(auto)]

mod laws;
mod redirect;

pub use laws::{
    coded_slide_keeps_the_graph, coded_words_are_compacted, collected_heaps_keep_the_graph,
    objects_of_the_same_sizes_slide_alike, opaque_objects_have_their_sizes,
    parts_are_redirected_alike, reached_objects_are_a_live_list,
};
pub use redirect::redirect_objects;
