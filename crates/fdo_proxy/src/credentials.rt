//! Credentials of a connection to a message bus (D-Bus Specification, "Message Bus Messages",
//! "org.freedesktop.DBus.GetConnectionCredentials").
ghost use Rattle.std.specs.Prelude.{◌≡◌, [], Some, IfOk, option_map, string_bytes};
ghost use Rattle.fdo_proxy.specs.Credentials.{AreCredentials, IsCredentials, groups_of, with_group};
ghost use Rattle.fdo_proxy.specs.Dictionary.{TellsDict};

use crate::dictionary::{descriptor, field, numbers};
use std::alloc::{AllocError, Global};
use wire_message::Error;
use wire_value::{Bytes, Dict, Text, Value};

/// What a message bus knows of the process of a connection: the reply to GetConnectionCredentials (D-Bus Specification,
/// "Message Bus Messages", "org.freedesktop.DBus.GetConnectionCredentials").
///
/// A credential is absent where the bus can't tell it. Credentials are equal where each of them is.
#[derive(Drop, PartialEq)]
pub struct ConnectionCredentials {
    unix_user_id: Option<u32>,
    unix_group_ids: Option<Vec<u32>>,
    process_fd: Option<u32>,
    process_id: Option<u32>,
    windows_sid: Option<Text>,
    linux_security_label: Option<Bytes>,
}

impl ConnectionCredentials {
    /// No credentials.
    pub fn new() -> ConnectionCredentials
        ensures { IsCredentials [] result }
    {
        ConnectionCredentials {
            unix_user_id: None,
            unix_group_ids: None,
            process_fd: None,
            process_id: None,
            windows_sid: None,
            linux_security_label: None,
        }
    }

    /// Reads credentials from a dictionary. A key that is there more than once has the last of its values. Other keys
    /// are ignored.
    ///
    /// # Errors
    ///
    /// `Variant(SignatureMismatch)` if and only if a value of one of these keys is of another type: `UnixUserID` u,
    /// `UnixGroupIDs` au, `ProcessFD` h, `ProcessID` u, `WindowsSID` s, `LinuxSecurityLabel` ay.
    /// `Memory` for want of memory.
    pub fn from_dict(alloc: Global, dict: Dict<Text, Value>) -> Result<ConnectionCredentials, Error>
        ensures { TellsDict (IsCredentials dict) (AreCredentials dict) result }
    {
        let entries = dict.as_slice();
        Ok(ConnectionCredentials {
            unix_user_id: field(alloc, entries, "UnixUserID")?,
            unix_group_ids: numbers(alloc, entries, "UnixGroupIDs")?,
            process_fd: descriptor(alloc, entries, "ProcessFD")?,
            process_id: field(alloc, entries, "ProcessID")?,
            windows_sid: field(alloc, entries, "WindowsSID")?,
            linux_security_label: field(alloc, entries, "LinuxSecurityLabel")?,
        })
    }

    /// The number of the process's user, as POSIX has it.
    pub fn unix_user_id(&self) -> Option<u32>
        ensures { result ≡ self.now.unix_user_id }
    {
        self.unix_user_id
    }

    /// The numbers of all groups of the process, as POSIX has them, the primary group among them.
    pub fn unix_group_ids(&self) -> Option<&[u32]>
        ensures { option_map (λ ids. ids.now) result ≡ groups_of self.now }
    {
        Some(self.unix_group_ids.as_ref()?.as_slice())
    }

    /// Hands out the numbers of the groups, as [`ConnectionCredentials::unix_group_ids`].
    pub fn into_unix_group_ids(self) -> Option<Vec<u32>>
        ensures { result ≡ self.unix_group_ids }
    {
        self.unix_group_ids
    }

    /// The file descriptor of the process, as its index in the list of the message that it came with. While it is open,
    /// no other process is taken for this one.
    pub fn process_fd(&self) -> Option<u32>
        ensures { result ≡ self.now.process_fd }
    {
        self.process_fd
    }

    /// The number of the process, as POSIX has it. Another process may get the number later.
    pub fn process_id(&self) -> Option<u32>
        ensures { result ≡ self.now.process_id }
    {
        self.process_id
    }

    /// The security identifier of the process's user on Windows, as text: `S-1-5-18` is the local system's.
    pub fn windows_sid(&self) -> Option<&str>
        ensures { option_map (λ text. text.now) result ≡ self.now.windows_sid }
    {
        Some(self.windows_sid.as_ref()?.as_str())
    }

    /// Hands out the security identifier, as [`ConnectionCredentials::windows_sid`].
    pub fn into_windows_sid(self) -> Option<String>
        ensures { option_map string_bytes result ≡ self.windows_sid }
    {
        let mut credentials = self;
        Some(credentials.windows_sid.take()?.into_string())
    }

    /// The label that a security module of Linux gave the process: its bytes and a 0 byte behind them.
    pub fn linux_security_label(&self) -> Option<&[u8]>
        ensures { option_map (λ bytes. bytes.now) result ≡ self.now.linux_security_label }
    {
        Some(self.linux_security_label.as_ref()?.as_slice())
    }

    /// Hands out the label, as [`ConnectionCredentials::linux_security_label`].
    pub fn into_linux_security_label(self) -> Option<Vec<u8>>
        ensures { option_map (λ bytes. bytes.items) result ≡ self.linux_security_label }
    {
        let mut credentials = self;
        Some(credentials.linux_security_label.take()?.into_vec())
    }

    /// Sets the number of the user, and nothing else.
    pub fn set_unix_user_id(self, unix_user_id: u32) -> ConnectionCredentials
        ensures { result ≡ record self { unix_user_id = Some unix_user_id } }
    {
        let mut credentials = self;
        credentials.unix_user_id = Some(unix_user_id);
        credentials
    }

    /// Appends the number of a group, and changes nothing else. Where there were none it is the only one.
    ///
    /// # Errors
    ///
    /// [`AllocError`] for want of memory. Then the credentials are given up.
    pub fn add_unix_group_id(
        self,
        alloc: Global,
        unix_group_id: u32,
    ) -> Result<ConnectionCredentials, AllocError>
        ensures groups { IfOk result (λ c. groups_of c ≡ Some (with_group (groups_of self) unix_group_id)) }
        ensures others { IfOk result (λ c. c ≡ record self { unix_group_ids = c.unix_group_ids }) }
    {
        let mut credentials = self;
        let mut ids = match credentials.unix_group_ids.take() {
            Some(ids) => ids,
            None => Vec::new(alloc),
        };
        ids.push(unix_group_id)?;
        credentials.unix_group_ids = Some(ids);
        Ok(credentials)
    }

    /// Sets the index of the file descriptor, and nothing else.
    pub fn set_process_fd(self, process_fd: u32) -> ConnectionCredentials
        ensures { result ≡ record self { process_fd = Some process_fd } }
    {
        let mut credentials = self;
        credentials.process_fd = Some(process_fd);
        credentials
    }

    /// Sets the number of the process, and nothing else.
    pub fn set_process_id(self, process_id: u32) -> ConnectionCredentials
        ensures { result ≡ record self { process_id = Some process_id } }
    {
        let mut credentials = self;
        credentials.process_id = Some(process_id);
        credentials
    }

    /// Sets the security identifier, and nothing else.
    pub fn set_windows_sid(self, windows_sid: String) -> ConnectionCredentials
        ensures { result ≡ record self { windows_sid = Some (string_bytes windows_sid) } }
    {
        let mut credentials = self;
        credentials.windows_sid = Some(Text::from_string(windows_sid));
        credentials
    }

    /// Sets the label, and nothing else.
    pub fn set_linux_security_label(self, linux_security_label: Vec<u8>) -> ConnectionCredentials
        ensures { result ≡ record self { linux_security_label = Some linux_security_label.items } }
    {
        let mut credentials = self;
        credentials.linux_security_label = Some(Bytes::from_vec(linux_security_label));
        credentials
    }
}
