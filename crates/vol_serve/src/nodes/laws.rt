//! Laws of requests by i-number: on a sound image they agree with queries by path. The functions do nothing; their proved contracts are the laws.
ghost use Rattle.vol_serve.specs.NodeLaws.{StatsAreReplied, BytesAreReplied, NamesLeadAsWalks, ListingsAreReplied};

/// If a path leads to a node, `stat` of the node is the reply to a Stat of the path.
pub fn stats_are_replied()
    ensures { StatsAreReplied }
{}

/// If a path leads to a node, its bytes are those in the reply to a Read of the path.
pub fn bytes_are_replied()
    ensures { BytesAreReplied }
{}

/// If a path leads to a directory, looking up a name in it leads to the same node as the path followed by the name.
pub fn names_lead_as_walks()
    ensures { NamesLeadAsWalks }
{}

/// If a path leads to a directory, the entries starting with its first slot are, as a map, the names in the reply to a List of the path.
pub fn listings_are_replied()
    ensures { ListingsAreReplied }
{}
