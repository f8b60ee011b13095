// Stores.

use bc_data::list::{Bytes, List};
use bc_data::run::Body;

/// A store: the objects' bodies, the types of the tag instances, and the output. The object numbered n is the
/// n-th body from 0, and the instance numbered n has the n-th type from 0.
#[derive(Debug, Drop)]
pub struct Plain {
    pub bodies: List<Body>,
    pub tags: List<u32>,
    pub output: Bytes,
}
