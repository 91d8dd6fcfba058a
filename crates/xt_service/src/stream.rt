//! Where the clients of a service come from: TCP, or a socket of this machine that has a path.

ghost use Rattle.std.specs.Prelude.{◌≤◌, IfOk, length};

use std::io::{self, Read, Write};
use std::net::{TcpListener, TcpStream};
use std::os::unix::net::{UnixListener, UnixStream};
use std::time::Duration;

/// The stream of a client.
#[derive(Drop)]
pub enum Stream {
    Tcp(TcpStream),
    Unix(UnixStream),
}

/// What accepts clients.
#[derive(Clone, Copy)]
pub enum Listener<'a> {
    Tcp(&'a TcpListener),
    Unix(&'a UnixListener),
}

impl<'a> Listener<'a> {
    /// The stream of the next client; `WouldBlock` where none has come and it does not wait.
    pub fn accept(&self) -> io::Result<Stream> {
        match self {
            Listener::Tcp(listener) => {
                let (stream, _client) = listener.accept()?;
                Ok(Stream::Tcp(stream))
            }
            Listener::Unix(listener) => {
                let (stream, _client) = listener.accept()?;
                Ok(Stream::Unix(stream))
            }
        }
    }
}

impl Stream {
    /// Has it pass on what is written at once, and no read and no write wait longer than this. One that can't waits as before.
    pub fn prepare(&self, silence: Duration) {
        match self {
            Stream::Tcp(stream) => {
                let _ = stream.set_nodelay(true);
                let _ = stream.set_read_timeout(Some(silence));
                let _ = stream.set_write_timeout(Some(silence));
            }
            Stream::Unix(stream) => {
                let _ = stream.set_read_timeout(Some(silence));
                let _ = stream.set_write_timeout(Some(silence));
            }
        }
    }

    /// Reads what the client says.
    pub fn hear(&self, buf: &mut [u8]) -> io::Result<usize>
        ensures { IfOk result (λ count. count ≤ length buf.new) }
    {
        match self {
            Stream::Tcp(stream) => {
                let mut stream = stream;
                stream.read(buf)
            }
            Stream::Unix(stream) => {
                let mut stream = stream;
                stream.read(buf)
            }
        }
    }

    /// Writes what the client is told.
    pub fn tell(&self, buf: &[u8]) -> io::Result<usize>
        ensures { IfOk result (λ count. count ≤ length buf.now) }
    {
        match self {
            Stream::Tcp(stream) => {
                let mut stream = stream;
                stream.write(buf)
            }
            Stream::Unix(stream) => {
                let mut stream = stream;
                stream.write(buf)
            }
        }
    }
}
