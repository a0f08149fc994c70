ghost use Rattle.zst_laws.specs.AlikePools.{AlikePoolsAreSentAlike};

/// Pools that differ in the bytes of pairs to redact, and in what isn't asked of them, have one view of what is asked.
pub fn alike_pools_are_sent_alike()
    ensures { AlikePoolsAreSentAlike }
{}
