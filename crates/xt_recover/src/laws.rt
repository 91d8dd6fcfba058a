//! Laws of recovery, over the bytes of a log. Each function does nothing: its clause is the law.

ghost use Rattle.xt_recover.specs.Promise.{RecoversAgain, RecoversByNewer, RecoversBytes, RecoversEach};

/// After any steps of a mount, at every crash, the bytes of its log are whole texts and an unfinished end, read in one way; laid over its
/// home image, the newest first, they give what was committed at the begin of the last landed checkpoint, or of the one in flight, or of one
/// whose end failed: all of it or none.
pub fn recovers()
    ensures { RecoversBytes }
{}

/// The same of each slot of a host, by its own steps and its own disks alone, whatever the others did.
pub fn recovers_each()
    ensures { RecoversEach }
{}

/// Recovery that was broken off, and is run again over what it left, gives the same.
pub fn recovers_again()
    ensures { RecoversAgain }
{}

/// Over a home image that older and newer texts gave, the newer ones alone give the same: so of a log in two parts the older one may go first.
pub fn recovers_by_newer()
    ensures { RecoversByNewer }
{}
