//! Worked scripts that are driven here too; all of them stand in the folder `rows`, where the built program plays them.

/// A force waits for the checkpoint of one commit, which lands with both of its offers.
pub const ROW01_IN: &str = "\
    mount 0 65536 1024\n\
    0.1 alloc 5000 1 plain\n\
    0.1 get t1 7\n\
    0.1 log t1 7 0 aa*4096\n\
    0.1 commit t1\n\
    0.1 force\n\
    post 0.1.ckpt.1\n\
    take 0 0.1.ckpt.1\n\
    begin 0 0.1.ckpt.1\n\
    end 0 0.1.ckpt.1 2 ok\n\
    0.1 force\n";

/// A block is logged again while its checkpoint is in flight, and is written home once both have landed.
pub const FLOWN_AGAIN_IN: &str = "\
    mount 0 65536 1024\n\
    0.1 alloc 176 1 plain\n\
    0.1 read t1 7 = 00*4096\n\
    0.1 log t1 7 0 11\n\
    0.1 commit t1\n\
    0.1 force\n\
    post 0.1.ckpt.1\n\
    take 0 0.1.ckpt.1\n\
    begin 0 0.1.ckpt.1\n\
    0.1 alloc 176 1 plain\n\
    0.1 get t2 7\n\
    0.1 log t2 7 128 22\n\
    0.1 commit t2\n\
    end 0 0.1.ckpt.1 1 ok\n\
    0.1 push\n\
    post 0.1.flush.2\n\
    take 0 0.1.flush.2\n\
    flush 0 0.1.flush.2\n\
    0.1 force\n\
    post 0.1.ckpt.3\n\
    take 0 0.1.ckpt.3\n\
    begin 0 0.1.ckpt.3\n\
    end 0 0.1.ckpt.3 1 ok\n\
    0.1 push\n\
    post 0.1.flush.4\n\
    take 0 0.1.flush.4\n\
    flush 0 0.1.flush.4 ok ok\n";

/// What it prints.
pub const FLOWN_AGAIN_OUT: &str = "\
    0 life 1\n\
    0 t1\n\
    0 ok\n\
    0 ok\n\
    0 c1\n\
    0 wait c1\n\
    0 ok\n\
    0 ok\n\
    0 begun c1 1\n\
    0 t2\n\
    0 ok\n\
    0 ok\n\
    0 c2\n\
    0 landed c1\n\
    0 log 58435031.00*7.0100000001.00*7.0700000001.00*4.11.00*127.5843453100000001.00*7.01 ok\n\
    0 logsync ok\n\
    0 ok\n\
    0 ok\n\
    0 ok\n\
    0 nothing\n\
    0 wait c2\n\
    0 ok\n\
    0 ok\n\
    0 begun c2 1\n\
    0 landed c2\n\
    0 log 58435031.00*7.0200000001.00*7.0700000002.00*4.22.00*127.5843453100000001.00*7.02 ok\n\
    0 logsync ok\n\
    0 ok\n\
    0 ok\n\
    0 ok\n\
    0 flushed 1\n\
    0 home 7 11.00*127.22.00*3967 ok\n\
    0 homesync ok\n";

/// A failed write home, and then a good one.
pub const FAILED_WRITE_IN: &str = "\
    mount 0 65536 1024\n\
    0.1 alloc 176 1 plain\n\
    0.1 read t1 7 = 00*4096\n\
    0.1 log t1 7 130 0102\n\
    0.1 commit t1\n\
    0.1 force\n\
    post 0.1.ckpt.1\n\
    take 0 0.1.ckpt.1\n\
    begin 0 0.1.ckpt.1\n\
    end 0 0.1.ckpt.1 1 ok\n\
    0.1 push\n\
    post 0.1.flush.2\n\
    take 0 0.1.flush.2\n\
    flush 0 0.1.flush.2 fail ok\n\
    0.1 unmount\n\
    0.1 push\n\
    post 0.1.flush.3\n\
    take 0 0.1.flush.3\n\
    flush 0 0.1.flush.3 ok ok\n\
    0.1 unmount\n";

/// What it prints.
pub const FAILED_WRITE_OUT: &str = "\
    0 life 1\n\
    0 t1\n\
    0 ok\n\
    0 ok\n\
    0 c1\n\
    0 wait c1\n\
    0 ok\n\
    0 ok\n\
    0 begun c1 1\n\
    0 landed c1\n\
    0 log 58435031.00*7.0100000001.00*7.0700000002.00*6.0102.00*124.5843453100000001.00*7.01 ok\n\
    0 logsync ok\n\
    0 ok\n\
    0 ok\n\
    0 ok\n\
    0 flushed 0\n\
    0 home 7 00*130.0102.00*3964 fail\n\
    0 homesync ok\n\
    0 EBUSY\n\
    0 ok\n\
    0 ok\n\
    0 ok\n\
    0 flushed 1\n\
    0 home 7 00*130.0102.00*3964 ok\n\
    0 homesync ok\n\
    0 ok\n";

/// A block that a transaction gave up for good stays locked until its checkpoint has landed, and is never written home.
pub const INVALIDATED_IN: &str = "\
    mount 0 65536 1024\n\
    0.1 alloc 48 1 plain\n\
    0.1 read t1 7 = 55*4096\n\
    0.1 inval t1 7\n\
    0.1 commit t1\n\
    0.1 alloc 176 1 plain\n\
    0.1 get t2 7\n\
    0.1 force\n\
    post 0.1.ckpt.1\n\
    take 0 0.1.ckpt.1\n\
    begin 0 0.1.ckpt.1\n\
    0.1 get t2 7\n\
    end 0 0.1.ckpt.1 1 ok\n\
    0.1 get t2 7\n\
    0.1 view t2 7\n\
    0.1 push\n\
    post 0.1.flush.2\n\
    take 0 0.1.flush.2\n\
    flush 0 0.1.flush.2\n";

/// What it prints.
pub const INVALIDATED_OUT: &str = "\
    0 life 1\n\
    0 t1\n\
    0 ok\n\
    0 ok\n\
    0 c1\n\
    0 t2\n\
    0 EAGAIN\n\
    0 wait c1\n\
    0 ok\n\
    0 ok\n\
    0 begun c1 1\n\
    0 EAGAIN\n\
    0 landed c1\n\
    0 log 58435031.00*7.0100000001.00*7.07.00*7.015843453100000001.00*7.01 ok\n\
    0 logsync ok\n\
    0 ok\n\
    0 data 00*4096\n\
    0 ok\n\
    0 ok\n\
    0 ok\n\
    0 nothing\n";

/// A block of 512 bytes is read, logged and written home.
pub const SMALL_HOME_IN: &str = "\
    mount 0 65536 1024 512\n\
    0.1 alloc 180 1 plain\n\
    0.1 read t1 7 = 00*512\n\
    0.1 log t1 7 130 0102\n\
    0.1 commit t1\n\
    0.1 force\n\
    post 0.1.ckpt.1\n\
    take 0 0.1.ckpt.1\n\
    begin 0 0.1.ckpt.1\n\
    end 0 0.1.ckpt.1 1 ok\n\
    0.1 push\n\
    post 0.1.flush.2\n\
    take 0 0.1.flush.2\n\
    flush 0 0.1.flush.2 ok ok\n\
    0.1 unmount\n";

/// What it prints.
pub const SMALL_HOME_OUT: &str = "\
    0 life 1\n\
    0 t1\n\
    0 ok\n\
    0 ok\n\
    0 c1\n\
    0 wait c1\n\
    0 ok\n\
    0 ok\n\
    0 begun c1 1\n\
    0 landed c1\n\
    0 log 58435032.00*7.0100000001000002.00*8.0700000002.00*6.0102.00*124.5843453200000001.00*7.01 ok\n\
    0 logsync ok\n\
    0 ok\n\
    0 ok\n\
    0 ok\n\
    0 flushed 1\n\
    0 home 7 00*130.0102.00*380 ok\n\
    0 homesync ok\n\
    0 ok\n";

/// A mount tells of itself while a block is written, given up for good, and let go.
pub const STAT_IN: &str = "\
    mount 0 65536 1024 512\n\
    0.1 alloc 600 1 plain\n\
    0.1 get t1 5\n\
    0.1 log t1 5 0 01*512\n\
    0.1 commit t1\n\
    0.1 stat\n\
    0.1 alloc 600 1 plain\n\
    0.1 read t2 5\n\
    0.1 inval t2 5\n\
    0.1 stat\n\
    0.1 commit t2\n\
    0.1 stat\n\
    0.1 force\n\
    post 0.1.ckpt.1\n\
    take 0 0.1.ckpt.1\n\
    begin 0 0.1.ckpt.1\n\
    0.1 stat\n\
    end 0 0.1.ckpt.1 1 ok\n\
    0.1 stat\n";

/// What it prints.
pub const STAT_OUT: &str = "\
    0 life 1\n\
    0 t1\n\
    0 ok\n\
    0 ok\n\
    0 c1\n\
    0 stat 0 1 0 1 564 c0 0 c0 0 564 64972 thawed 0 0\n\
    0 t2\n\
    0 ok\n\
    0 ok\n\
    0 stat 1 1 0 1 564 c0 0 c0 600 1164 64372 thawed 0 0\n\
    0 c1\n\
    0 stat 0 1 0 1 52 c0 0 c0 0 52 65484 thawed 0 0\n\
    0 wait c1\n\
    0 ok\n\
    0 ok\n\
    0 begun c1 1\n\
    0 stat 0 1 0 0 0 c1 0 c0 0 52 65484 thawed 0 1\n\
    0 landed c1\n\
    0 log 58435032.00*7.0100000001000002.00*8.05.00*7.015843453200000001.00*7.01 ok\n\
    0 logsync ok\n\
    0 stat 0 0 0 0 0 c0 0 c0 0 0 65536 thawed 0 0\n";
