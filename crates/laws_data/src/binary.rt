// Laws of the binary form of nodes, over the definitions alone (Octez "data encoding", narrowed to one
// spelling for each node). Each function makes no call; its contract is the law.
ghost use Rattle.laws_data.specs.binary.Laws.{FieldsAreSpelt, IntegersAreSpelt, DecodedIsSpelt, DecodedNodesAreFew, SpellingIsDecoded, OneSpelling, NodesAreDecoded, OneNode, NoPrefix};

/// A field that is read stands in the bytes as its spelling: its length and its content.
pub fn fields_are_spelt()
    ensures { FieldsAreSpelt }
{}

/// An integer that is read stands in the bytes as its one spelling.
pub fn integers_are_spelt()
    ensures { IntegersAreSpelt }
{}

/// Bytes that are decoded as a node are that node's spelling.
pub fn decoded_is_spelt()
    ensures { DecodedIsSpelt }
{}

/// A node that is decoded has at most half as many nodes as there are bytes.
pub fn decoded_nodes_are_few()
    ensures { DecodedNodesAreFew }
{}

/// The spelling of a node that was decoded is decoded as that node.
pub fn spelling_is_decoded()
    ensures { SpellingIsDecoded }
{}

/// No two lists of bytes are decoded as one node.
pub fn one_spelling()
    ensures { OneSpelling }
{}

/// A node whose names have codes, whose annotations have their form, whose numbers, strings and bytes are within their limits
/// and which has at most 1,000 levels is decoded from its spelling, where that is shorter than 2^32 bytes.
pub fn nodes_are_decoded()
    ensures { NodesAreDecoded }
{}

/// No two such nodes have one spelling.
pub fn one_node()
    ensures { OneNode }
{}

/// No spelling is a proper prefix of another, where both are shorter than 2^32 bytes.
pub fn no_spelling_is_a_prefix()
    ensures { NoPrefix }
{}
