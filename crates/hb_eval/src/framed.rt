//! What a machine keeps of a frame.

use hb_call::Frame;
use hb_types::ids::ClassId;

/// The frame of a call, and what its caller goes on with behind it.
#[derive(Drop)]
pub struct Framed {
    pub frame: Frame,
    /// The caller's variables are those from here on.
    pub base: usize,
    /// The class of the caller's self, where a method runs.
    pub class: Option<ClassId>,
}
