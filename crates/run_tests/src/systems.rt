//! Configurations and organisations of worked cases.

/// Two nodes, each of which needs both.
pub const TWO_OF_TWO: &str =
    r#"[{"publicKey":"p","quorumSet":{"threshold":2,"validators":["p","q"]}},{"publicKey":"q","quorumSet":{"threshold":2,"validators":["p","q"]}}]"#;

/// Three nodes, of which each needs two of the three.
pub const TWO_OF_THREE: &str =
    r#"[{"publicKey":"a","quorumSet":{"threshold":2,"validators":["a","b","c"]}},{"publicKey":"b","quorumSet":{"threshold":2,"validators":["a","b","c"]}},{"publicKey":"c","quorumSet":{"threshold":2,"validators":["a","b","c"]}}]"#;

/// Four nodes, of which each needs three of the four.
pub const THREE_OF_FOUR: &str =
    r#"[{"publicKey":"a","quorumSet":{"threshold":3,"validators":["a","b","c","d"]}},{"publicKey":"b","quorumSet":{"threshold":3,"validators":["a","b","c","d"]}},{"publicKey":"c","quorumSet":{"threshold":3,"validators":["a","b","c","d"]}},{"publicKey":"d","quorumSet":{"threshold":3,"validators":["a","b","c","d"]}}]"#;

/// Node a needs two of b, which stands twice, and node b needs itself.
pub const REPEATED: &str =
    r#"[{"publicKey":"a","quorumSet":{"threshold":2,"validators":["b","b"]}},{"publicKey":"b","quorumSet":{"threshold":1,"validators":["b"]}}]"#;

/// One organisation with node a and a node that is not there.
pub const ORG: &str = r#"[{"id":"A","validators":["a","zz"]}]"#;

/// The configuration of a trial of one organisation.
pub const TRIAL_OF_ONE: &str =
    r#"[{"publicKey":"t000","quorumSet":{"innerQuorumSets":[{"innerQuorumSets":[],"threshold":2,"validators":["t000","t001","t002"]}],"threshold":1,"validators":[]}},{"publicKey":"t001","quorumSet":{"innerQuorumSets":[{"innerQuorumSets":[],"threshold":2,"validators":["t000","t001","t002"]}],"threshold":1,"validators":[]}},{"publicKey":"t002","quorumSet":{"innerQuorumSets":[{"innerQuorumSets":[],"threshold":2,"validators":["t000","t001","t002"]}],"threshold":1,"validators":[]}}]"#;
