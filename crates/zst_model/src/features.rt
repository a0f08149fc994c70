//! The features that a stream may have, bits of `drr_versioninfo`.
ghost use Rattle.std.specs.Prelude.{◌≡◌};
ghost use Rattle.zst_model.specs.sends.Features.{redacts, resuming};

/// A stream that was asked for by a token (DMU_BACKUP_FEATURE_RESUMING of zfs_ioctl.h).
pub const RESUMING: u32 = 1 << 20;

/// A stream that may have REDACT records (DMU_BACKUP_FEATURE_REDACTED).
pub const REDACTED: u32 = 1 << 21;

/// Law: the features in code are those of the definitions.
#[tactic(auto, unfolding(crate::specs::sends::Features::resuming, crate::specs::sends::Features::redacts))]
pub fn features_are_defined()
    ensures resuming { RESUMING ≡ resuming }
    ensures redacted { REDACTED ≡ redacts }
{}
