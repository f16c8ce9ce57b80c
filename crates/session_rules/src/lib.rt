// The lines of a session as the rules give them, and whether a refusal ends it.
#![tactic(auto)]

ghost use Rattle.std.specs.Prelude.{◌≡◌};
ghost use Rattle.session_rules.specs.Session.{ends_session};

// By the number, as `session_rules:Session.ends_session` says it of the line that is printed.
pub fn ends(code: u8) -> bool
    ensures { result ≡ ends_session code }
{
    (1..=3).contains(&code)
}
