//! One file for groups of voters, one for seats, one for multipliers, and the others for winners. Expected values are
//! worked by hand, or found by a plainer search.
mod asked;
mod clones;
mod distances;
mod families;
mod groups;
mod known;
mod memory;
mod multipliers;
mod searches;
mod shares;
mod support;
mod walks;
