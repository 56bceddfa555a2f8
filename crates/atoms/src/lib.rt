// Required atoms: what they ask of a label and give it, through Ands, without walking what is shared twice; labels, targets and reasons: document 01, sections 2 and 3.
#![tactic(auto)]

pub mod antecedent;
pub mod body;
pub mod floor;
pub mod labels;
pub mod large;
pub mod leaves;
pub mod lists;
pub mod marks;
pub mod occurrences;
pub mod reasons;
pub mod short;
pub mod subsumers;
pub mod target_label;
pub mod visits;
