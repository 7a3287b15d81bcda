//! The kinds of standard errors, and their names.
ghost use Rattle.std.specs.Prelude.{◌≡◌, ◌≢◌, ◌↔◌, Some, IsNone, IfSome};
ghost use Rattle.std.specs.List.{All};
ghost use Rattle.wire_message.specs.StandardNames.{kind_name};

/// A standard error, by what it says. The names are those of the D-Bus Specification and of its reference
/// implementation: `org.freedesktop.DBus.Error.` and the kind; of a kind that begins with `Spawn` this word is an
/// element of its own.
#[derive(Clone, Copy, Debug, PartialEq, Eq, Hash)]
pub enum Kind {
    Failed,
    NoMemory,
    ServiceUnknown,
    NameHasNoOwner,
    NoReply,
    IOError,
    BadAddress,
    NotSupported,
    LimitsExceeded,
    AccessDenied,
    AuthFailed,
    NoServer,
    Timeout,
    NoNetwork,
    AddressInUse,
    Disconnected,
    InvalidArgs,
    FileNotFound,
    FileExists,
    UnknownMethod,
    UnknownObject,
    UnknownInterface,
    UnknownProperty,
    PropertyReadOnly,
    TimedOut,
    MatchRuleNotFound,
    MatchRuleInvalid,
    UnixProcessIdUnknown,
    InvalidSignature,
    InvalidFileContent,
    SELinuxSecurityContextUnknown,
    AdtAuditDataUnknown,
    ObjectPathInUse,
    InconsistentMessage,
    InteractiveAuthorizationRequired,
    NotContainer,
    SpawnExecFailed,
    SpawnForkFailed,
    SpawnChildExited,
    SpawnChildSignaled,
    SpawnFailed,
    SpawnFailedToSetup,
    SpawnConfigInvalid,
    SpawnServiceNotValid,
    SpawnServiceNotFound,
    SpawnPermissionsInvalid,
    SpawnFileInvalid,
    SpawnNoMemory,
}

/// Each kind once.
const ALL: [Kind; 48] = [
    Kind::Failed,
    Kind::NoMemory,
    Kind::ServiceUnknown,
    Kind::NameHasNoOwner,
    Kind::NoReply,
    Kind::IOError,
    Kind::BadAddress,
    Kind::NotSupported,
    Kind::LimitsExceeded,
    Kind::AccessDenied,
    Kind::AuthFailed,
    Kind::NoServer,
    Kind::Timeout,
    Kind::NoNetwork,
    Kind::AddressInUse,
    Kind::Disconnected,
    Kind::InvalidArgs,
    Kind::FileNotFound,
    Kind::FileExists,
    Kind::UnknownMethod,
    Kind::UnknownObject,
    Kind::UnknownInterface,
    Kind::UnknownProperty,
    Kind::PropertyReadOnly,
    Kind::TimedOut,
    Kind::MatchRuleNotFound,
    Kind::MatchRuleInvalid,
    Kind::UnixProcessIdUnknown,
    Kind::InvalidSignature,
    Kind::InvalidFileContent,
    Kind::SELinuxSecurityContextUnknown,
    Kind::AdtAuditDataUnknown,
    Kind::ObjectPathInUse,
    Kind::InconsistentMessage,
    Kind::InteractiveAuthorizationRequired,
    Kind::NotContainer,
    Kind::SpawnExecFailed,
    Kind::SpawnForkFailed,
    Kind::SpawnChildExited,
    Kind::SpawnChildSignaled,
    Kind::SpawnFailed,
    Kind::SpawnFailedToSetup,
    Kind::SpawnConfigInvalid,
    Kind::SpawnServiceNotValid,
    Kind::SpawnServiceNotFound,
    Kind::SpawnPermissionsInvalid,
    Kind::SpawnFileInvalid,
    Kind::SpawnNoMemory,
];

/// The first of the kinds whose name that is.
fn first_named(kinds: &[Kind], text: &str) -> Option<Kind>
    ensures none { IsNone result → All (λ kind. kind_name kind ≢ text.now) kinds.now }
    ensures some { IfSome result (λ kind. text.now ≡ kind_name kind) }
{
    for kind in kinds {
        if kind.name() == text {
            return Some(*kind);
        }
    }
    None
}

impl Kind {
    /// The name of the error in a message's header.
    #[tactic(auto, unfolding(crate::specs::StandardNames::kind_name))]
    pub fn name(self) -> &'static str
        ensures { result.now ≡ kind_name self }
    {
        match self {
            Kind::Failed => "org.freedesktop.DBus.Error.Failed",
            Kind::NoMemory => "org.freedesktop.DBus.Error.NoMemory",
            Kind::ServiceUnknown => "org.freedesktop.DBus.Error.ServiceUnknown",
            Kind::NameHasNoOwner => "org.freedesktop.DBus.Error.NameHasNoOwner",
            Kind::NoReply => "org.freedesktop.DBus.Error.NoReply",
            Kind::IOError => "org.freedesktop.DBus.Error.IOError",
            Kind::BadAddress => "org.freedesktop.DBus.Error.BadAddress",
            Kind::NotSupported => "org.freedesktop.DBus.Error.NotSupported",
            Kind::LimitsExceeded => "org.freedesktop.DBus.Error.LimitsExceeded",
            Kind::AccessDenied => "org.freedesktop.DBus.Error.AccessDenied",
            Kind::AuthFailed => "org.freedesktop.DBus.Error.AuthFailed",
            Kind::NoServer => "org.freedesktop.DBus.Error.NoServer",
            Kind::Timeout => "org.freedesktop.DBus.Error.Timeout",
            Kind::NoNetwork => "org.freedesktop.DBus.Error.NoNetwork",
            Kind::AddressInUse => "org.freedesktop.DBus.Error.AddressInUse",
            Kind::Disconnected => "org.freedesktop.DBus.Error.Disconnected",
            Kind::InvalidArgs => "org.freedesktop.DBus.Error.InvalidArgs",
            Kind::FileNotFound => "org.freedesktop.DBus.Error.FileNotFound",
            Kind::FileExists => "org.freedesktop.DBus.Error.FileExists",
            Kind::UnknownMethod => "org.freedesktop.DBus.Error.UnknownMethod",
            Kind::UnknownObject => "org.freedesktop.DBus.Error.UnknownObject",
            Kind::UnknownInterface => "org.freedesktop.DBus.Error.UnknownInterface",
            Kind::UnknownProperty => "org.freedesktop.DBus.Error.UnknownProperty",
            Kind::PropertyReadOnly => "org.freedesktop.DBus.Error.PropertyReadOnly",
            Kind::TimedOut => "org.freedesktop.DBus.Error.TimedOut",
            Kind::MatchRuleNotFound => "org.freedesktop.DBus.Error.MatchRuleNotFound",
            Kind::MatchRuleInvalid => "org.freedesktop.DBus.Error.MatchRuleInvalid",
            Kind::UnixProcessIdUnknown => "org.freedesktop.DBus.Error.UnixProcessIdUnknown",
            Kind::InvalidSignature => "org.freedesktop.DBus.Error.InvalidSignature",
            Kind::InvalidFileContent => "org.freedesktop.DBus.Error.InvalidFileContent",
            Kind::SELinuxSecurityContextUnknown =>
                "org.freedesktop.DBus.Error.SELinuxSecurityContextUnknown",
            Kind::AdtAuditDataUnknown => "org.freedesktop.DBus.Error.AdtAuditDataUnknown",
            Kind::ObjectPathInUse => "org.freedesktop.DBus.Error.ObjectPathInUse",
            Kind::InconsistentMessage => "org.freedesktop.DBus.Error.InconsistentMessage",
            Kind::InteractiveAuthorizationRequired =>
                "org.freedesktop.DBus.Error.InteractiveAuthorizationRequired",
            Kind::NotContainer => "org.freedesktop.DBus.Error.NotContainer",
            Kind::SpawnExecFailed => "org.freedesktop.DBus.Error.Spawn.ExecFailed",
            Kind::SpawnForkFailed => "org.freedesktop.DBus.Error.Spawn.ForkFailed",
            Kind::SpawnChildExited => "org.freedesktop.DBus.Error.Spawn.ChildExited",
            Kind::SpawnChildSignaled => "org.freedesktop.DBus.Error.Spawn.ChildSignaled",
            Kind::SpawnFailed => "org.freedesktop.DBus.Error.Spawn.Failed",
            Kind::SpawnFailedToSetup => "org.freedesktop.DBus.Error.Spawn.FailedToSetup",
            Kind::SpawnConfigInvalid => "org.freedesktop.DBus.Error.Spawn.ConfigInvalid",
            Kind::SpawnServiceNotValid => "org.freedesktop.DBus.Error.Spawn.ServiceNotValid",
            Kind::SpawnServiceNotFound => "org.freedesktop.DBus.Error.Spawn.ServiceNotFound",
            Kind::SpawnPermissionsInvalid => "org.freedesktop.DBus.Error.Spawn.PermissionsInvalid",
            Kind::SpawnFileInvalid => "org.freedesktop.DBus.Error.Spawn.FileInvalid",
            Kind::SpawnNoMemory => "org.freedesktop.DBus.Error.Spawn.NoMemory",
        }
    }

    /// The kind whose name that is; none exactly where it is no kind's.
    pub fn from_name(text: &str) -> Option<Kind>
        ensures { (kind : Kind) → (result ≡ Some kind) ↔ (text.now ≡ kind_name kind) }
    {
        first_named(&ALL, text)
    }
}
