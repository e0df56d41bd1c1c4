//! A trace and a log.

/// The trace of a unit that is lost with LOS, found again, and gasps with a burst.
pub(crate) const TRACE: &'static str = "\
0 0 search = searching\n\
0 1 frame = ok\n\
0 2 frame = ok sent ff010000000000000000000058\n\
0 3 frame = ok sent ff010000000000000000000058\n\
0 4 frame = ok sent ff010000000000000000000058\n\
0 5 frame = ok grant search\n\
0 6 burst 100000 ff01414243440000000100002c = found 0\n\
0 7 frame = ok sent ff03004142434400000001001b\n\
0 8 frame = ok sent ff03004142434400000001001b\n\
0 9 frame = ok sent ff03004142434400000001001b\n\
0 10 frame = ok grant range 0\n\
0 11 burst 100000 0001414243440000000100006b = ranged 0 211040\n\
0 12 frame = ok sent 0004000003386000000000009c\n\
0 13 frame = ok sent 0004000003386000000000009c\n\
0 14 frame = ok sent 0004000003386000000000009c\n\
0 15 frame = ok\n\
0 16 frame = ok grant poll 0\n\
0 17 frame = ok\n\
0 18 frame = ok\n\
0 19 frame = ok\n\
0 20 alloc ABCD00000001 = allocated 256\n\
0 21 frame = ok sent 000a1000010000000000000047\n\
0 22 frame = ok sent 000a1000010000000000000047\n\
0 23 frame = ok sent 000a1000010000000000000047\n\
0 24 frame = ok grant poll 0\n\
0 25 frame = ok\n\
0 26 frame = ok\n\
0 27 frame = ok\n\
0 28 frame = ok grant poll 0\n\
0 29 frame = ok\n\
0 30 frame = ok\n\
0 31 frame = ok\n\
0 32 frame = ok grant poll 0\n\
0 33 frame = ok\n\
0 34 frame = ok\n\
0 35 frame = ok alarm LOS ABCD00000001\n\
0 36 frame = ok sent 00050000000000000000000063\n\
0 37 frame = ok sent 00050000000000000000000063\n\
0 38 frame = ok sent 00050000000000000000000063\n\
0 39 frame = ok\n\
0 40 search = searching\n\
0 41 frame = ok\n\
0 42 frame = ok sent ff010000000000000000000058\n\
0 43 frame = ok sent ff010000000000000000000058\n\
0 44 frame = ok sent ff010000000000000000000058\n\
0 45 frame = ok grant search\n\
0 46 burst 100000 ff01414243440000000100002c = found 1\n\
0 47 frame = ok sent ff030141424344000000010073\n\
0 48 frame = ok sent ff030141424344000000010073\n\
0 49 frame = ok sent ff030141424344000000010073\n\
0 50 frame = ok grant range 1\n\
0 51 burst 100000 01014142434400000001000036 = ranged 1 211040\n\
0 52 alloc ABCD00000001 = allocated 256\n\
0 53 frame = ok sent 010400000338600000000000c1\n\
0 54 frame = ok sent 010400000338600000000000c1\n\
0 55 frame = ok sent 010400000338600000000000c1\n\
0 56 frame = ok sent 010a100001000000000000001a\n\
0 57 frame = ok sent 010a100001000000000000001a\n\
0 58 frame = ok sent 010a100001000000000000001a\n\
0 59 frame = ok\n\
0 60 burst 100000 0103000000000000000000007c = gasp 1 alarm DG ABCD00000001\n\
";

/// A log in which two units have one ONU-ID.
pub(crate) const LOG: &'static str = "\
0 down ff010000000000000000000058\n\
1 down ff010000000000000000000058\n\
2 down ff010000000000000000000058\n\
3 grant search\n\
4 up ff01414243440000000100002c 10000\n\
4 up ff0148575443000012ab0000cb 20000\n\
5 down ff0303414243440000000100a3\n\
6 down ff0303414243440000000100a3\n\
7 down ff0303414243440000000100a3\n\
8 down ff030348575443000012ab0082\n\
9 down ff030348575443000012ab0082\n\
10 down ff030348575443000012ab0082\n\
11 grant range 3\n\
12 up 0301414243440000000100008c 10000\n\
12 up 030148575443000012ab00006b 20000\n\
13 down 030400000497f00000000000a2\n\
14 down 030400000497f00000000000a2\n\
15 down ff06ff41424344000000010055\n\
";
