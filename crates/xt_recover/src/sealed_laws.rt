//! Laws of recovery over sealed logs, with any bytes behind the texts that were synced, whatever old texts were cut or dropped by turns. Each function does
//! nothing: its clause is the law.

ghost use Rattle.xt_recover.specs.SealedFiles.{FilesReadBackOrForged, FilesRecoverUnlessForged, PartsReadBackOrForged};
ghost use Rattle.xt_recover.specs.SealedPromise.{AppendsForgeNothing, AtEveryCrash, AtEveryCrashOfEach, ReadsBackOrForged, ReadsOneWay, RecoversUnlessForged};

/// After any steps of a mount, at every crash, whatever bytes stand behind the synced texts of its log and their seals, and however they are read: all
/// texts that landed are read. And what is read gives what was committed at the begin of the last landed checkpoint, or of the one in flight, or of
/// one whose end failed, all of it or none; or a text is forged, that is, nobody wrote it and it has the seal which would be due.
pub fn recovers_or_forged()
    ensures { AtEveryCrash ReadsBackOrForged }
{}

/// The same of each slot of a host, by its own steps and its own disks alone, whatever the others did.
pub fn recovers_or_forged_each()
    ensures { AtEveryCrashOfEach ReadsBackOrForged }
{}

/// Where no text is forged, the log is read in one way, whatever stands behind its synced texts, and that gives what was committed: of a log with seals
/// what `laws::recovers` says of one without.
pub fn recovers_sealed()
    ensures { AtEveryCrash RecoversUnlessForged }
{}

/// The same of each slot of a host, by its own steps and its own disks alone, whatever the others did.
pub fn recovers_sealed_each()
    ensures { AtEveryCrashOfEach RecoversUnlessForged }
{}

/// No text is forged in what was appended: any beginning of the text that was being written, and of its seal.
pub fn nothing_forged()
    ensures { AtEveryCrash AppendsForgeNothing }
{}

/// A sealed log is read in one way.
pub fn reads_one_way()
    ensures { ReadsOneWay }
{}

/// A log in two parts, behind two headers, and any bytes behind either: read one behind the other they give what was committed, or a text is forged.
pub fn recovers_sealed_parts()
    ensures { AtEveryCrash PartsReadBackOrForged }
{}

/// Of a log in two files that are written by turns, of which one goes on where the other ends, or has no text yet: however they are read, that gives
/// what was committed, or a text in them is forged.
pub fn recovers_files_or_forged()
    ensures { AtEveryCrash FilesReadBackOrForged }
{}

/// The same of each slot of a host, by its own steps and its own disks alone, whatever the others did.
pub fn recovers_files_or_forged_each()
    ensures { AtEveryCrashOfEach FilesReadBackOrForged }
{}

/// Where no text in them is forged, the two files are read in one way, and that gives what was committed.
pub fn recovers_sealed_files()
    ensures { AtEveryCrash FilesRecoverUnlessForged }
{}

/// The same of each slot of a host, by its own steps and its own disks alone, whatever the others did.
pub fn recovers_sealed_files_each()
    ensures { AtEveryCrashOfEach FilesRecoverUnlessForged }
{}
