//! The rules of an image.

/// What an image has to meet, in the order in which it is asked: what a rule says rests on those before it.
#[derive(Clone, Copy, Debug, PartialEq, Eq)]
pub enum Rule {
    /// The bytes begin with an image, and each number is one of its type.
    Form,
    /// The text is that of an accepted program, in its canonical form.
    Text,
    /// The numbers are in their ranges.
    Ranges,
    /// The versions are a version tree of nested stretches of places.
    Versions,
    /// Each node is one of its type.
    Nodes,
    /// The nodes of each record stand in one chain.
    Chains,
    /// Each pointer segment has just one entry in the node that it leads to.
    Pointers,
    /// Each entry segment has its pointer.
    Entries,
    /// Each node has at most its capacity of stamped values.
    Capacity,
    /// There are no more nodes and stamped values than the records that were made and the writes allow.
    Bound,
}

impl Rule {
    ghost use Rattle.std.specs.Prelude.{◌≡◌};
    ghost use Rattle.pst_image_rules.specs.Rules.{number_of};

    /// The rule's number, from 0 to 9 in the order in which rules are asked: what the refusal of an image says.
    pub fn number(self) -> u8
        ensures { result ≡ number_of self }
    {
        match self {
            Rule::Form => 0,
            Rule::Text => 1,
            Rule::Ranges => 2,
            Rule::Versions => 3,
            Rule::Nodes => 4,
            Rule::Chains => 5,
            Rule::Pointers => 6,
            Rule::Entries => 7,
            Rule::Capacity => 8,
            Rule::Bound => 9,
        }
    }
}
