//! Lines that are bad, and lines that are good, for the tests.

/// Lines that are bad in version 1, each after its first reason and a space.
pub const BAD_LINES: &str = "\
3 step\t1 1\n\
3 call 1 hop\x7f\n\
3 \u{e9}\n\
5 \n\
5  \n\
5 hop\n\
5 Step 1 1\n\
5  step 1 1\n\
5 call 1 \n\
5 call 1 hop c0\n\
5 call 999 hop\n\
5 call  1 accept\n\
5 call 1 waits c0 plain\n\
5 call 1 lockpage b0 int\n\
5 call 999 complete_all d0\n\
6 call\n\
6 call 200\n\
6 step\n\
6 step 200\n\
6 step  1 1\n\
6 step 1 1 \n\
6 step 1 1 1\n\
6 call 200 wait\n\
6 call 1 wait c0\n\
6 call 1 wait c0 plain 1\n\
6 call 1 wait c99 bad 1\n\
6 call 1 set c0\n\
6 call 1 take c0 1\n\
6 call 1 read\n\
6 call 1 wake c0 normal\n\
6 call 1 add c0 woken\n\
6 call 64 add c0 woken prio 1\n\
6 call 200 swake\n\
6 call 1 swait c48\n\
6 call 1 complete\n\
6 call 1 completeall d0 x\n\
6 call 1 waitfor d99\n\
6 call 1 trybit b0 0\n\
6 call 1 lockbit b0.0\n\
6 call 1 waitvar v0 int\n\
6 call 1 setvar v0 1 plain\n\
6 call 1 remove \n\
6 call 1 woken\n\
6 call 1 signal 2\n\
6 call 999 accept now\n\
6 call 1 kick\n\
7 step 128 1\n\
7 step 256 1\n\
7 step 1 0\n\
7 step 1 1000001\n\
7 step 01 1\n\
7 step +1 1\n\
7 step -1 1\n\
7 step 1 ten\n\
7 call 128 accept\n\
7 call 128 wait c99 bad\n\
7 call 1 set c0 18446744073709551616\n\
7 call 1 set c99 00\n\
7 call 1 wake c0 normal 128\n\
7 call 1 wake c99 bad 128\n\
7 call 64 add c0 default prio\n\
7 call 64 add c99 bad prio\n\
7 call 1 signal 128 plain\n\
7 call 1 signal x bad\n\
7 call 1 kick 128\n\
7 call 128 swake c0 bad\n\
7 call 1 waitvar v0 18446744073709551616 bad\n\
7 call 1 setvar v999 01\n\
8 call 1 wait c0 plain-ex\n\
8 call 1 wait c99 bad\n\
8 call 1 wait c0 Plain\n\
8 call 1 wait c0 normal\n\
8 call 1 wake c0 kill 0\n\
8 call 1 add c0 autoremove front\n\
8 call 1 add c99 default back\n\
8 call 1 woken int-ex\n\
8 call 1 signal 2 kill\n\
8 call 64 add c0 default back\n\
8 call 1 swait c48 kill\n\
8 call 1 swait c0 kill\n\
8 call 1 swake c48 1\n\
8 call 1 waitfor d64 int-ex\n\
8 call 1 waitbit b0 sleep\n\
8 call 1 waitvar v0 0 normal\n\
9 call 1 wait c50 plain\n\
9 call 1 wait c48 int\n\
9 call 1 wait c00 plain\n\
9 call 1 wait d0 plain\n\
9 call 1 wait c plain\n\
9 call 1 wait  plain\n\
9 call 1 wake c48 normal 0\n\
9 call 1 add c48 default front\n\
9 call 63 add c99 woken prio\n\
9 call 1 set c64 1\n\
9 call 1 take c64\n\
9 call 1 read c18446744073709551616\n\
9 call 1 swait c47 plain\n\
9 call 1 swait c64 plain\n\
9 call 1 swake d48 all\n\
9 call 1 complete c0\n\
9 call 1 waitfor d64 int\n\
9 call 1 isdone d00\n\
9 call 1 trybit b0\n\
9 call 1 trybit b0.64\n\
9 call 1 trybit b128.0\n\
9 call 1 trybit b00.1\n\
9 call 1 trybit b0.01\n\
9 call 1 trybit b0.\n\
9 call 1 trybit b.0\n\
9 call 1 trybit b1.2.3\n\
9 call 1 trybit 0.0\n\
9 call 1 waitbit c0.0 int\n\
9 call 1 waitvar v128 0 int\n\
9 call 1 setvar b0 1";

/// Lines that are bad in version 2, each after its first reason and a space.
pub const BAD_LINES_OF_VERSION_2: &str = "\
5 call 256 hop\n\
6 step 256\n\
6 call 1 lockpage b0\n\
6 call 256 lockpage b128 bad 1\n\
6 call 255 add c0 woken prio 1\n\
7 step 256 1\n\
7 step 65536 1\n\
7 step 255 1000001\n\
7 call 256 accept\n\
7 call 256 wait c99 bad\n\
7 call 1 wake c0 normal 256\n\
7 call 1 wake c99 bad 256\n\
7 call 64 add c0 default prio\n\
7 call 255 add c99 bad prio\n\
7 call 1 signal 256 plain\n\
7 call 1 kick 256\n\
8 call 128 wait c99 bad\n\
8 call 1 wake c99 bad 255\n\
8 call 255 add c0 default back\n\
8 call 1 lockpage b0 int-ex\n\
8 call 1 lockpage b128 normal\n\
9 call 255 wait c50 plain\n\
9 call 1 lockpage b128 int\n\
9 call 1 lockpage b0.0 int\n\
9 call 1 lockpage b00 int\n\
9 call 1 lockpage b int\n\
9 call 1 lockpage v0 kill\n\
9 call 63 add c99 woken prio";

/// A line of each call.
pub const CALLS: &str = "\
call 0 wait c0 plain\n\
call 0 wait c0 int\n\
call 0 wait c0 kill\n\
call 0 wait c0 int-ex\n\
call 0 set c63 18446744073709551615\n\
call 0 take c63\n\
call 0 read c63\n\
call 0 wake c47 normal 0\n\
call 63 add c47 default front\n\
call 63 add c47 woken tail\n\
call 63 add c47 default prio\n\
call 0 remove\n\
call 0 woken plain\n\
call 0 woken int\n\
call 0 woken kill\n\
call 127 add c0 woken tail\n\
call 0 signal 127 plain\n\
call 0 signal 127 fatal\n\
call 127 accept\n\
call 0 kick 127\n\
call 0 swait c48 plain\n\
call 0 swait c63 int\n\
call 0 swake c48 one\n\
call 0 swake c63 all\n\
call 0 complete d63\n\
call 0 completeall d63\n\
call 0 reinit d63\n\
call 0 waitfor d0 plain\n\
call 0 waitfor d0 kill\n\
call 0 trywait d0\n\
call 0 isdone d0\n\
call 0 trybit b127.63\n\
call 0 waitbit b0.0 int\n\
call 0 lockbit b0.0 plain\n\
call 0 clearbit b127.0\n\
call 0 waitvar v127 18446744073709551615 kill\n\
call 0 setvar v0 0";

/// Lines that lock pages.
pub const PAGES: &str = "\
call 0 lockpage b0 plain\n\
call 127 lockpage b127 int\n\
call 9 lockpage b64 kill";

/// Lines with greater numbers than version 1 takes.
pub const GREATER: &str = "\
step 128 1\n\
step 255 1000000\n\
call 255 accept\n\
call 128 add c0 default front\n\
call 0 wake c0 normal 128\n\
call 0 wake c0 int 255\n\
call 0 signal 255 fatal\n\
call 0 kick 128";
