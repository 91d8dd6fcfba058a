//! Where a service listens: at a port of this machine, or at a socket with a path.

use crate::serve::fault::ServeFault;
use std::alloc::{AllocError, Global};
use std::fs;
use std::io::{self, ErrorKind};
use std::net::TcpListener;
use std::os::unix::fs::FileTypeExt;
use std::os::unix::net::{UnixListener, UnixStream};
use xt_service::stream::Listener;

/// Where a service is to listen.
#[derive(Debug, Drop)]
pub enum Address {
    /// At a port of 127.0.0.1; where this is 0 at one that the system chooses.
    Port(u16),
    /// At a socket with this path.
    Path(String),
}

impl Address {
    /// The address that a word spells, as `127.0.0.1:7070` or `unix:/run/xth.sock`; None where it spells none.
    pub fn spelled(alloc: Global, word: &str) -> Result<Option<Self>, AllocError> {
        if let Some(path) = word.strip_prefix("unix:") {
            return if path.is_empty() {
                Ok(None)
            } else {
                Ok(Some(Address::Path(String::from_str(alloc, path)?)))
            };
        }
        let Some(port) = word.strip_prefix("127.0.0.1:") else {
            return Ok(None);
        };
        match port.parse::<u16>() {
            Ok(port) => Ok(Some(Address::Port(port))),
            Err(_no_number) => Ok(None),
        }
    }
}

/// What a service listens with.
#[derive(Drop)]
pub enum Listening {
    Tcp(TcpListener),
    Unix(UnixListener),
}

impl Listening {
    /// What accepts its clients.
    pub fn clients(&self) -> Listener<'_> {
        match self {
            Listening::Tcp(listener) => Listener::Tcp(listener),
            Listening::Unix(listener) => Listener::Unix(listener),
        }
    }

    /// Has it wait for a client, or not.
    pub fn set_nonblocking(&self, nonblocking: bool) -> io::Result<()> {
        match self {
            Listening::Tcp(listener) => listener.set_nonblocking(nonblocking),
            Listening::Unix(listener) => listener.set_nonblocking(nonblocking),
        }
    }
}

/// Whether a socket has a path at which nobody listens: an earlier service has left it.
fn is_left(rt: &HostRuntime, path: &str) -> bool {
    let Ok(found) = fs::metadata(rt, path) else {
        return false;
    };
    let kind = found.file_type();
    match UnixStream::connect(rt, path) {
        Err(error) => kind.is_socket() && error.kind() == ErrorKind::ConnectionRefused,
        Ok(_stream) => false,
    }
}

/// Listens at a path. A socket that an earlier service has left there is taken away first; one at which somebody listens stays, and so does a file of
/// another kind.
fn listen_at_path(rt: &HostRuntime, path: &str) -> io::Result<UnixListener> {
    match UnixListener::bind(rt, path) {
        Err(error) if error.kind() == ErrorKind::AddrInUse && is_left(rt, path) => {
            fs::remove_file(rt, path)?;
            UnixListener::bind(rt, path)
        }
        outcome => outcome,
    }
}

/// Listens at an address: what it listens with, and the address as it is told, a port by its number alone.
pub fn listen(
    rt: &HostRuntime,
    alloc: Global,
    address: &Address,
) -> Result<(Listening, String), ServeFault> {
    match address {
        Address::Port(port) => {
            let listener = match TcpListener::bind(rt, ("127.0.0.1", *port)) {
                Ok(listener) => listener,
                Err(error) => return Err(ServeFault::Port(*port, error)),
            };
            let told = format!(in alloc; "{}", listener.local_addr()?.port())?;
            Ok((Listening::Tcp(listener), told))
        }
        Address::Path(path) => match listen_at_path(rt, path.as_str()) {
            Ok(listener) => {
                let told = format!(in alloc; "unix:{path}")?;
                Ok((Listening::Unix(listener), told))
            }
            Err(error) => Err(ServeFault::Path(String::from_str(alloc, path.as_str())?, error)),
        },
    }
}

/// Takes the path of a socket away, once nobody is to come by it any more.
pub fn take_away(rt: &HostRuntime, address: &Address) {
    if let Address::Path(path) = address {
        let _ = fs::remove_file(rt, path.as_str());
    }
}
