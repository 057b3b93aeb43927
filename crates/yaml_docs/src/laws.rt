// A law of the nodes of whole texts.
ghost use Rattle.yaml_docs.specs.NodesInBytes.{NodesAreAtTheirPlaces};

/// Each node of a presentation of a whole text is at its place in the bytes of the text, as the contracts of
/// [`flow_node`](yaml_flow::flow_node) and [`block_node`](yaml_block::block_node) speak of it: the place is on a
/// boundary of a character, the node fits there, and what comes after it ends it.
///
/// So these calls find a node there, each presentation of the text that has a node there gives it the events and the
/// end that they return, and they refuse only where no presentation has one.
pub fn nodes_are_at_their_places()
    ensures { NodesAreAtTheirPlaces }
{}
