// What holds of every key.
ghost use Rattle.grid.specs.KeyRule.{KeysFollowTheRule, KeysTell, KeysReadBack};
ghost use Rattle.grid.specs.MarkedKeys.{MarkedKeys};

// A vector has one key by the rule, the one that `Setting::key` answers.
pub fn keys_follow_the_rule()
    ensures { KeysFollowTheRule }
{}

// A key fits 32 bits, its place is one of the vector's, and its measure is the vector's there and at no place before.
#[tactic(auto, using(crate::proofs::Rules::tell))]
pub fn keys_tell()
    ensures { KeysTell }
{}

// Place and measure are read back from the key that they make.
pub fn keys_read_back()
    ensures { KeysReadBack }
{}

// The eight keys that the rules mark.
#[tactic(auto, using(crate::proofs::Marked::marked_keys))]
pub fn marked_keys()
    ensures { MarkedKeys }
{}
