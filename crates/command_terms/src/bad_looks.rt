//! The parts that commands show of an image of which some blocks couldn't be read.

use crate::looks::{ExportOptions, NodeName, OutputForm, Picture};
use vol_listing::ListOptions;

/// What a command shows of an image of which some blocks couldn't be read.
#[derive(Clone, Copy)]
pub enum BadLook<'a> {
    /// Everything below a directory, as an archive.
    Export {
        path: &'a str,
        options: ExportOptions,
    },
    /// The paths of everything below a directory, as for [`Look::Find`](crate::Look::Find).
    Find {
        path: &'a str,
        name: Option<&'a str>,
        lost: bool,
        form: OutputForm,
    },
    /// A manifest of everything below a directory, as for [`Look::Sums`](crate::Look::Sums).
    Sums {
        path: &'a str,
        form: OutputForm,
        lost: bool,
    },
    /// What can be said of each rule of soundness, as for [`Look::Check`](crate::Look::Check).
    Check {
        graded: bool,
        form: OutputForm,
    },
    /// The owners of a block that are known, as for [`Look::Block`](crate::Look::Block).
    Block {
        block: u32,
        form: OutputForm,
    },
    /// A picture of what is known of the use of each block, as for [`Look::Map`](crate::Look::Map).
    Map {
        picture: Picture,
    },
    /// What is known of the use of each block, as for [`Look::Uses`](crate::Look::Uses).
    Uses,
    /// The names in a directory, or a file, as for [`Look::ListUnsound`](crate::Look::ListUnsound).
    List {
        path: &'a str,
        listing: ListOptions,
    },
    /// The bytes of a regular file, as for [`Look::ReadUnsound`](crate::Look::ReadUnsound). With `damaged`, also those of a damaged one, with zeros in
    /// place of the bytes that are lost.
    Read {
        path: &'a str,
        damaged: bool,
    },
    /// The bytes of an i-node, as `cat` prints them. With `damaged`, also those of a damaged one, as for `Read`.
    Body {
        node: NodeName<'a>,
        damaged: bool,
    },
}
