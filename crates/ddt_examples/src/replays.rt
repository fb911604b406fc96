//! Scripts of replays, each with the lines that it prints.

/// Two lookups at once, with a reply that is repeated, one that is late, and a second try:
/// `examples/replays/interleaved.replay`.
pub const INTERLEAVED: &str = r#"ask [0]10.1.2.3
ask [0]10.2.0.1
deliver 0
deliver 1
deliver 3
deliver 2
deliver 2
deliver 4
deliver 6
deliver 6
wait 2000
deliver 5
deliver 7
tick
deliver 7
tick
deliver 8
deliver 9
deliver 10
deliver 11
ask [0]10.2.5.5
deliver 99
"#;

/// What it prints: `examples/replays/interleaved.lines`.
pub const INTERLEAVED_LINES: &str = r#"ticket 1 sent 0 to 127.0.0.1
ticket 2 sent 1 to 127.0.0.1
reply 2
reply 3
ticket 2 sent 4 to 127.0.0.10
ticket 1 sent 5 to 127.0.0.10
ignored UnknownNonce
reply 6
ticket 2 answer hole [0]10.2.0.0/15
ignored UnknownNonce
now 2000
reply 7
ignored Late
ticket 1 sent 8 to 127.0.0.10
ignored UnknownNonce
nothing
reply 9
ticket 1 sent 10 to 127.0.1.1
reply 11
ticket 1 answer registered [0]10.1.2.0/24 127.0.1.1 127.0.1.2
answer hole [0]10.2.0.0/15
nothing
"#;

/// A hole is remembered for fifteen minutes, and the referral above it for longer: `examples/replays/hole_ends.replay`.
pub const HOLE_ENDS: &str = r#"ask [0]10.2.0.1
deliver 0
deliver 1
deliver 2
deliver 3
wait 60000
ask [0]10.2.0.1
wait 840000
ask [0]10.2.0.1
"#;

/// What it prints: `examples/replays/hole_ends.lines`.
pub const HOLE_ENDS_LINES: &str = r#"ticket 1 sent 0 to 127.0.0.1
reply 1
ticket 1 sent 2 to 127.0.0.10
reply 3
ticket 1 answer hole [0]10.2.0.0/15
now 60000
answer hole [0]10.2.0.0/15
now 900000
ticket 3 sent 4 to 127.0.0.10
"#;

/// A Map-Server stays silent twice, so the other one is asked: `examples/replays/next_server.replay`.
pub const NEXT_SERVER: &str = r#"ask [0]10.1.2.3
deliver 0
deliver 1
deliver 2
deliver 3
wait 2000
tick
wait 2000
tick
deliver 6
deliver 7
"#;

/// What it prints: `examples/replays/next_server.lines`.
pub const NEXT_SERVER_LINES: &str = r#"ticket 1 sent 0 to 127.0.0.1
reply 1
ticket 1 sent 2 to 127.0.0.10
reply 3
ticket 1 sent 4 to 127.0.1.1
now 2000
ticket 1 sent 5 to 127.0.1.1
now 4000
ticket 1 sent 6 to 127.0.1.2
reply 7
ticket 1 answer registered [0]10.1.2.0/24 127.0.1.1 127.0.1.2
"#;

/// A zone comes and goes while its identifier is looked up, over the campus and the grown campus:
/// `examples/replays/zone_comes_and_goes.replay`.
pub const ZONE_COMES_AND_GOES: &str = r#"ask [0]10.2.0.1
deliver 0
deliver 1
replace 1
deliver 2
deliver 3
replace 0
deliver 4
wait 2000
tick
replace 1
deliver 5
deliver 6
replace 0
ask [0]10.2.0.1
replace 9
"#;

/// What it prints: `examples/replays/zone_comes_and_goes.lines`.
pub const ZONE_COMES_AND_GOES_LINES: &str = r#"ticket 1 sent 0 to 127.0.0.1
reply 1
ticket 1 sent 2 to 127.0.0.10
replaced 1
reply 3
ticket 1 sent 4 to 127.0.0.9
replaced 0
silent
now 2000
ticket 1 sent 5 to 127.0.0.9
replaced 1
reply 6
ticket 1 answer hole [0]10.2.0.0/16
replaced 0
answer hole [0]10.2.0.0/16
nothing
"#;

/// A zone gets wider, over the campus and the register with the wider zone, and its servers refer upwards:
/// `examples/replays/zone_gets_wider.replay`.
pub const ZONE_GETS_WIDER: &str = r#"ask [0]10.2.0.1
deliver 0
deliver 1
replace 1
deliver 2
deliver 3
"#;

/// What it prints: `examples/replays/zone_gets_wider.lines`.
pub const ZONE_GETS_WIDER_LINES: &str = r#"ticket 1 sent 0 to 127.0.0.1
reply 1
ticket 1 sent 2 to 127.0.0.10
replaced 1
reply 3
ticket 1 gave-up Loop
"#;
