// A text a line, and after the tab the list that its mask prints, or the error that it is refused with.
pub const CPU_LISTS: &str = "\
5,0-3,2\t0-3,5
0,1\t0-1
\t
3-1\tE11 bad mask at 3
8\t8
1,\tE11 bad mask at 2
1-\tE11 bad mask at 2
01\tE11 bad mask at 1
1,,2\tE11 bad mask at 2
32\tE11 bad mask at 1
9-4\tE11 bad mask at 2
3-10\t3-10
10-3\tE11 bad mask at 4
31\t31
7\t7
0-7\t0-7
0-31\t0-31
-\tE11 bad mask at 0
,\tE11 bad mask at 0
 1\tE11 bad mask at 0
1 \tE11 bad mask at 1
0-0\t0
1-0\tE11 bad mask at 2
00\tE11 bad mask at 1
1-2-3\tE11 bad mask at 3
1,2-\tE11 bad mask at 4
30-2\tE11 bad mask at 3
29-3\tE11 bad mask at 4
3,9\t3,9
11-\tE11 bad mask at 3
12-1\tE11 bad mask at 4
2-1\tE11 bad mask at 3
2-0\tE11 bad mask at 2
19-2\tE11 bad mask at 4
x\tE11 bad mask at 0
1x\tE11 bad mask at 1
1,x\tE11 bad mask at 2
31-31\t31
31-30\tE11 bad mask at 4
4-31,5\t4-31
08,030\tE11 bad mask at 1
-16\tE11 bad mask at 0
-30,14-9\tE11 bad mask at 0
4,02,17,024\tE11 bad mask at 3
028,6-,31-13,27-\tE11 bad mask at 1
024,026,1-,010\tE11 bad mask at 1
17-18\t17-18
30\t30
4-\tE11 bad mask at 2
18,-7\tE11 bad mask at 3
-21\tE11 bad mask at 0
19,6\t6,19
-18,2-21\tE11 bad mask at 0
8-,-29,-6\tE11 bad mask at 2
-15,-16,21-\tE11 bad mask at 0
020,-8,29-,17-\tE11 bad mask at 1
03\tE11 bad mask at 1
29-,020,11-\tE11 bad mask at 3
016,-6,08\tE11 bad mask at 1
15-,27-6\tE11 bad mask at 3
020\tE11 bad mask at 1
-10,13-\tE11 bad mask at 0
7-2,012,011\tE11 bad mask at 3
22,-18,29-\tE11 bad mask at 3
26-,26,0-30,032\tE11 bad mask at 3
29,21-\tE11 bad mask at 6
018\tE11 bad mask at 1
2,27-3\tE11 bad mask at 6
-7\tE11 bad mask at 0
1-33,026,07\tE11 bad mask at 3
30-,14-\tE11 bad mask at 3
07\tE11 bad mask at 1
8-,-25\tE11 bad mask at 2
17-33,027,-20\tE11 bad mask at 4
2-7\t2-7
032\tE11 bad mask at 1
20-4,24-,019\tE11 bad mask at 3
21-27,8,-5\tE11 bad mask at 8
29-\tE11 bad mask at 3
027\tE11 bad mask at 1
-20,-29,13-17\tE11 bad mask at 0
-14\tE11 bad mask at 0
20,016\tE11 bad mask at 4
33,20,00,15-24\tE11 bad mask at 1
05\tE11 bad mask at 1
1-21,1,-18,2\tE11 bad mask at 7
6,020\tE11 bad mask at 3
11-15\t11-15
025,25-,026,-32\tE11 bad mask at 1
26-33,-9,10-6,-30\tE11 bad mask at 4
011,12-,032,18-26\tE11 bad mask at 1
19-1,30-,11-23\tE11 bad mask at 4
30-,-30\tE11 bad mask at 3
01,25,-14,13\tE11 bad mask at 1
16-8,2-16\tE11 bad mask at 3
20,-5\tE11 bad mask at 3
16\t16
28-\tE11 bad mask at 3
21\t21
-31,31-25,20-7,4-\tE11 bad mask at 0
-33\tE11 bad mask at 0
023\tE11 bad mask at 1
16-,33-,-32,18\tE11 bad mask at 3
23-29,6\t6,23-29
026,29-30,11-\tE11 bad mask at 1
25-22\tE11 bad mask at 4
17-\tE11 bad mask at 3
2-30\t2-30
32-22,25-,04\tE11 bad mask at 1
9,06,07,26-25\tE11 bad mask at 3
09,33-10\tE11 bad mask at 1
16-23,1-\tE11 bad mask at 8
-20,-33,-1,6\tE11 bad mask at 0
33-29,12-33,2-32,-7\tE11 bad mask at 1
29-5,03\tE11 bad mask at 3
014,31,20-\tE11 bad mask at 1
5-2,21,12\tE11 bad mask at 3
-20,26\tE11 bad mask at 0
25-31,-4\tE11 bad mask at 6
-19,-29\tE11 bad mask at 0
29-2,23-,-33,025\tE11 bad mask at 4
16-23\t16-23
-12,1-10\tE11 bad mask at 0
010,7-10,-31,1\tE11 bad mask at 1
26-,15,25,14\tE11 bad mask at 3
-30\tE11 bad mask at 0
7-,3\tE11 bad mask at 2
-19,17-1,22-\tE11 bad mask at 0
27\t27
1\t1
32-2\tE11 bad mask at 1
12,12-,30-,24\tE11 bad mask at 6
18,-7,-21,24-22\tE11 bad mask at 3
26-,28-30\tE11 bad mask at 3
10-,024,9\tE11 bad mask at 3
-5\tE11 bad mask at 0
3-3,-29,0-\tE11 bad mask at 4
-6,019\tE11 bad mask at 0
13,9,00,18-13\tE11 bad mask at 6
032,020\tE11 bad mask at 1
5-2,1,16-5,29\tE11 bad mask at 3
06,25-\tE11 bad mask at 1
0,4-\tE11 bad mask at 4
31-4,023,33\tE11 bad mask at 3
3-,27-28\tE11 bad mask at 2
13-\tE11 bad mask at 3
13-29,026\tE11 bad mask at 7
026,-30\tE11 bad mask at 1
11,9,033\tE11 bad mask at 6
12,31-,22,18-9\tE11 bad mask at 6
-19\tE11 bad mask at 0
13,-18,10-,29-\tE11 bad mask at 3
18-,29\tE11 bad mask at 3
15-,0,09\tE11 bad mask at 3
0,-22\tE11 bad mask at 2
-11\tE11 bad mask at 0
27-\tE11 bad mask at 3
06\tE11 bad mask at 1
15-,-16,1\tE11 bad mask at 3
15-8\tE11 bad mask at 3
021,1-,1,29\tE11 bad mask at 1
33-,11-,6-26,28-\tE11 bad mask at 1
28-,09,33-2\tE11 bad mask at 3
-14,017,7-,17-17\tE11 bad mask at 0
-4\tE11 bad mask at 0
031\tE11 bad mask at 1
22-,-25\tE11 bad mask at 3
25-,8,26-\tE11 bad mask at 3
12-5,07,18,-17\tE11 bad mask at 3
18-,15-31,9-9,29-25\tE11 bad mask at 3
25-3\tE11 bad mask at 4
19-12,9-3\tE11 bad mask at 4
013,27\tE11 bad mask at 1
17,7-9\t7-9,17
24-22,04,23\tE11 bad mask at 4
4-22,031,30-,33-\tE11 bad mask at 6
-19,29-24,18-11,10-\tE11 bad mask at 0
8-3,03,011\tE11 bad mask at 3
7-25\t7-25
017,-28,13-20\tE11 bad mask at 1
023,022,18-,11-\tE11 bad mask at 1
15-,-17\tE11 bad mask at 3
-21,033\tE11 bad mask at 0
03,-27,15,-13\tE11 bad mask at 1
013,031,-24\tE11 bad mask at 1
23-\tE11 bad mask at 3
-28,31,14-\tE11 bad mask at 0
0,13,-18\tE11 bad mask at 5
20\t20
28-21,07,-14\tE11 bad mask at 4
18-,11\tE11 bad mask at 3
22,31,-17,-13\tE11 bad mask at 6
019,6-,28,0\tE11 bad mask at 1
-6,-14,25-5,33\tE11 bad mask at 0
05,30-25\tE11 bad mask at 1
29-,12-19,8-\tE11 bad mask at 3
33-,-3,12-\tE11 bad mask at 1
6-29,32\tE11 bad mask at 6
11-,31-\tE11 bad mask at 3
15,24-,18-16,16-\tE11 bad mask at 6
13,28-,010\tE11 bad mask at 6
13-23,014,025,011\tE11 bad mask at 7
3-,029,11,026\tE11 bad mask at 2
-32,25-\tE11 bad mask at 0
26,20-6\tE11 bad mask at 6
09,-9,31-\tE11 bad mask at 1
5-19,018,-18\tE11 bad mask at 6
022,-23,18-12,024\tE11 bad mask at 1
010,-11,-12\tE11 bad mask at 1
3,10-32,7-6\tE11 bad mask at 6
-32\tE11 bad mask at 0
4-,20-,7-,30\tE11 bad mask at 2
16-23,16-32,14-15,22-\tE11 bad mask at 10
-21,9-\tE11 bad mask at 0
-17\tE11 bad mask at 0
28-,027\tE11 bad mask at 3
17-,2-2,27-0\tE11 bad mask at 3
32-13,16-\tE11 bad mask at 1
7-10,4-31,-18\tE11 bad mask at 10
021\tE11 bad mask at 1
5-5,6-0,33\tE11 bad mask at 6
028,0-4,26-,2\tE11 bad mask at 1
6-,24-0,028\tE11 bad mask at 2
-28,22\tE11 bad mask at 0
26-25,25\tE11 bad mask at 4
015\tE11 bad mask at 1
25\t25
12-29,032,024\tE11 bad mask at 7
4-,-32,18,-33\tE11 bad mask at 2
010,33-,4\tE11 bad mask at 1
-15\tE11 bad mask at 0
22\t22
-31,8-,05\tE11 bad mask at 0
12\t12
25-33\tE11 bad mask at 4
5-19,032\tE11 bad mask at 6
23,26,025,-21\tE11 bad mask at 7
30-,-16,6-\tE11 bad mask at 3
-30,3-,03,24-11\tE11 bad mask at 0
11,-16,-21\tE11 bad mask at 3
23,25-,014,12-1\tE11 bad mask at 6
25,-24,027,-25\tE11 bad mask at 3
12,25-32\tE11 bad mask at 7
6\t6
08,-9,27-31\tE11 bad mask at 1
-32,1-,24-\tE11 bad mask at 0
12-\tE11 bad mask at 3
-15,14-\tE11 bad mask at 0
019,013,32\tE11 bad mask at 1
17-4,22-\tE11 bad mask at 3
22-13,7-29,-16\tE11 bad mask at 3
18-,28-13,22-,26\tE11 bad mask at 3
015,7,20-22\tE11 bad mask at 1
20-3,20\tE11 bad mask at 4
18-,-28,30-0,10\tE11 bad mask at 3
24-,29-24,-23,21\tE11 bad mask at 3
028,-4,14-7,11-16\tE11 bad mask at 1
23,21-0,03\tE11 bad mask at 6
32,31-\tE11 bad mask at 1
-5,5,17,1-\tE11 bad mask at 0
-2\tE11 bad mask at 0
28-,0-\tE11 bad mask at 3
27-8\tE11 bad mask at 3
-33,-30,019\tE11 bad mask at 0
10-21\t10-21
-15,020,22-,23-\tE11 bad mask at 0
-19,-32\tE11 bad mask at 0
22,023\tE11 bad mask at 4
033,19-5,31,-10\tE11 bad mask at 1
16-0,12-15,-7\tE11 bad mask at 3
33-6,20,31-\tE11 bad mask at 1
11-,031,030\tE11 bad mask at 3
12,4-\tE11 bad mask at 5
6-,15-\tE11 bad mask at 2
14\t14
018,22-\tE11 bad mask at 1
-27,29\tE11 bad mask at 0
23-,11,-2,-15\tE11 bad mask at 3
16,27-22,-1,022\tE11 bad mask at 7
-23,10-\tE11 bad mask at 0
15,-16,30-33\tE11 bad mask at 3
25-16,-25,24-6,23-22\tE11 bad mask at 3
24-,22-33,18\tE11 bad mask at 3
12-25,13-33,23-16\tE11 bad mask at 10
7-7,01,19,022\tE11 bad mask at 5
11-,-16\tE11 bad mask at 3
30-5,22-0\tE11 bad mask at 3
26,25,-19,025\tE11 bad mask at 6
4-16,-7,04,022\tE11 bad mask at 5
020,4\tE11 bad mask at 1
14-6,22-10\tE11 bad mask at 3
";
