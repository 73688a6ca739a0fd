//! What is last known of each station, object and item.

pub(crate) mod greater;
pub(crate) mod heard;
pub(crate) mod index;
pub(crate) mod indexes;
pub(crate) mod kept;
pub(crate) mod notes;
pub(crate) mod subject;
