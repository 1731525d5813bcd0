//! When a bundle expires.

ghost use Rattle.std.specs.Prelude.{◌≡◌, ◌<◌};
ghost use Rattle.bundle_meaning.specs.Expiry.{lifetime6_of, slack_of, IsLifetime6};
ghost use Rattle.bundle_meaning.specs.Valid.{IsValid};

use crate::full::Full;

/// When the bundle expires, in milliseconds since the start of the year 2000 UTC. It is exact,
/// whichever version the bundle has.
pub fn expiry_ms(full: &Full) -> u128
    ensures { result ≡ full.now.shared.expiry }
{
    full.shared.expiry
}

/// For how many whole seconds the bundle lives in version 6: the fewest after which it isn't gone too
/// early.
pub fn lifetime6(full: &Full) -> u64
    requires { IsValid full.now }
    ensures least { IsLifetime6 full.now.shared result }
    ensures exact { result ≡ lifetime6_of full.now.shared }
{
    let end = full.shared.expiry.div_ceil(1000);
    (end - u128::from(full.shared.millis / 1000)) as u64
}

/// How many milliseconds too late the whole seconds of version 6 end, 0 to 999.
pub fn slack(full: &Full) -> u64
    requires { IsValid full.now }
    ensures small { result < 1000 }
    ensures exact { result ≡ slack_of full.now.shared }
{
    match (full.shared.expiry % 1000) as u64 {
        0 => 0,
        over => 1000 - over,
    }
}
