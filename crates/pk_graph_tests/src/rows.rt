// Texts whose main function is a line of instructions, each with what is known at its end: of the variables and, where the number before the text isn't 0, by an octagon
// over so many. The values are those of a second implementation; `assume` and `assert` stand for the verifier's names.

ghost use Rattle.std.specs.Prelude.{◌<◌};

use crate::lines::along;
use crate::printing::print;
use crate::ways::graph_of;
use pk_graph::Graph;
use pk_transfer::frame;
use std::alloc::Global;
use std::process::Abort;
use std::test::Fail;

const ROWS: &str = "
# wrapping in every unsigned type: a window passed at its end, at its start, in part, twice, a product, a negation and a complement
8: unsigned char x;assume(x>=250);assume(x<=255);x=x+10; -> x [4,9] 1Z+0
8: unsigned char x;assume(x>=250);assume(x<=255);x=x+3; -> x [0,255] 1Z+0
8: unsigned char x;assume(x>=2);assume(x<=5);x=x-6; -> x [252,255] 1Z+0
8: unsigned char x;assume(x>=2);assume(x<=5);x=x-3; -> x [0,255] 1Z+0
8: unsigned char x;assume(x>=0);assume(x<=3);x=x*129; -> x [0,255] 1Z+0
8: unsigned char x;assume(x>=4);assume(x<=9);x=-x; -> x [247,252] 1Z+0
8: unsigned char x;assume(x>=4);assume(x<=9);x=~x; -> x [246,251] 1Z+0
8: unsigned short x;assume(x>=65530);assume(x<=65535);x=x+10; -> x [4,9] 1Z+0
8: unsigned short x;assume(x>=65530);assume(x<=65535);x=x+3; -> x [0,65535] 1Z+0
8: unsigned short x;assume(x>=2);assume(x<=5);x=x-6; -> x [65532,65535] 1Z+0
8: unsigned short x;assume(x>=2);assume(x<=5);x=x-3; -> x [0,65535] 1Z+0
8: unsigned short x;assume(x>=0);assume(x<=3);x=x*32769; -> x [0,65535] 1Z+0
8: unsigned short x;assume(x>=4);assume(x<=9);x=-x; -> x [65527,65532] 1Z+0
8: unsigned short x;assume(x>=4);assume(x<=9);x=~x; -> x [65526,65531] 1Z+0
8: unsigned x;assume(x>=4294967290u);assume(x<=4294967295u);x=x+10u; -> x [4,9] 1Z+0
8: unsigned x;assume(x>=4294967290u);assume(x<=4294967295u);x=x+3u; -> x [0,4294967295] 1Z+0
8: unsigned x;assume(x>=2u);assume(x<=5u);x=x-6u; -> x [4294967292,4294967295] 1Z+0
8: unsigned x;assume(x>=2u);assume(x<=5u);x=x-3u; -> x [0,4294967295] 1Z+0
8: unsigned x;assume(x>=0u);assume(x<=3u);x=x*2147483649u; -> x [0,4294967295] 1Z+0
8: unsigned x;assume(x>=4u);assume(x<=9u);x=-x; -> x [4294967287,4294967292] 1Z+0
8: unsigned x;assume(x>=4u);assume(x<=9u);x=~x; -> x [4294967286,4294967291] 1Z+0
8: unsigned long x;assume(x>=18446744073709551610u);assume(x<=18446744073709551615u);x=x+10u; -> x [4,9] 1Z+0
8: unsigned long x;assume(x>=18446744073709551610u);assume(x<=18446744073709551615u);x=x+3u; -> x [0,18446744073709551615] 1Z+0
8: unsigned long x;assume(x>=2u);assume(x<=5u);x=x-6u; -> x [18446744073709551612,18446744073709551615] 1Z+0
8: unsigned long x;assume(x>=2u);assume(x<=5u);x=x-3u; -> x [0,18446744073709551615] 1Z+0
8: unsigned long x;assume(x>=0u);assume(x<=3u);x=x*9223372036854775809u; -> x [0,18446744073709551615] 1Z+0
8: unsigned long x;assume(x>=4u);assume(x<=9u);x=-x; -> x [18446744073709551607,18446744073709551612] 1Z+0
8: unsigned long x;assume(x>=4u);assume(x<=9u);x=~x; -> x [18446744073709551606,18446744073709551611] 1Z+0
8: unsigned long long x;assume(x>=18446744073709551610u);assume(x<=18446744073709551615u);x=x+10u; -> x [4,9] 1Z+0
8: unsigned long long x;assume(x>=18446744073709551610u);assume(x<=18446744073709551615u);x=x+3u; -> x [0,18446744073709551615] 1Z+0
8: unsigned long long x;assume(x>=2u);assume(x<=5u);x=x-6u; -> x [18446744073709551612,18446744073709551615] 1Z+0
8: unsigned long long x;assume(x>=2u);assume(x<=5u);x=x-3u; -> x [0,18446744073709551615] 1Z+0
8: unsigned long long x;assume(x>=0u);assume(x<=3u);x=x*9223372036854775809u; -> x [0,18446744073709551615] 1Z+0
8: unsigned long long x;assume(x>=4u);assume(x<=9u);x=-x; -> x [18446744073709551607,18446744073709551612] 1Z+0
8: unsigned long long x;assume(x>=4u);assume(x<=9u);x=~x; -> x [18446744073709551606,18446744073709551611] 1Z+0
# conversions to narrower types and to other signs
8: long x;assume(x>=-3);assume(x<=5);char y=x; -> x [-3,5] 1Z+0, y [-3,5] 1Z+0
8: long x;assume(x>=-3);assume(x<=5);signed char y=x; -> x [-3,5] 1Z+0, y [-3,5] 1Z+0
8: long x;assume(x>=-3);assume(x<=5);unsigned char y=x; -> x [-3,5] 1Z+0, y [0,255] 1Z+0
8: long x;assume(x>=-3);assume(x<=5);short y=x; -> x [-3,5] 1Z+0, y [-3,5] 1Z+0
8: long x;assume(x>=-3);assume(x<=5);unsigned short y=x; -> x [-3,5] 1Z+0, y [0,65535] 1Z+0
8: long x;assume(x>=-3);assume(x<=5);int y=x; -> x [-3,5] 1Z+0, y [-3,5] 1Z+0
8: long x;assume(x>=-3);assume(x<=5);unsigned y=x; -> x [-3,5] 1Z+0, y [0,4294967295] 1Z+0
8: long x;assume(x>=-3);assume(x<=5);long y=x; -> x [-3,5] 1Z+0, y [-3,5] 1Z+0
8: long x;assume(x>=-3);assume(x<=5);unsigned long y=x; -> x [-3,5] 1Z+0, y [0,18446744073709551615] 1Z+0
8: long x;assume(x>=-3);assume(x<=5);long long y=x; -> x [-3,5] 1Z+0, y [-3,5] 1Z+0
8: long x;assume(x>=-3);assume(x<=5);unsigned long long y=x; -> x [-3,5] 1Z+0, y [0,18446744073709551615] 1Z+0
8: long x;assume(x>=32760);assume(x<=32775);char y=x; -> x [32760,32775] 1Z+0, y [-8,7] 1Z+0
8: long x;assume(x>=32760);assume(x<=32775);signed char y=x; -> x [32760,32775] 1Z+0, y [-8,7] 1Z+0
8: long x;assume(x>=32760);assume(x<=32775);unsigned char y=x; -> x [32760,32775] 1Z+0, y [0,255] 1Z+0
8: long x;assume(x>=32760);assume(x<=32775);short y=x; -> x [32760,32775] 1Z+0, y [-32768,32767] 1Z+0
8: long x;assume(x>=32760);assume(x<=32775);unsigned short y=x; -> x [32760,32775] 1Z+0, y [32760,32775] 1Z+0
8: long x;assume(x>=32760);assume(x<=32775);int y=x; -> x [32760,32775] 1Z+0, y [32760,32775] 1Z+0
8: long x;assume(x>=32760);assume(x<=32775);unsigned y=x; -> x [32760,32775] 1Z+0, y [32760,32775] 1Z+0
8: int x;assume(x>=250);assume(x<=260);unsigned char y=5*x; -> x [250,260] 1Z+0, y [0,255] 1Z+0
8: int x;assume(x>=64);assume(x<=66);x=4*x;unsigned char y=x; -> x [256,264] 4Z+0, y [0,8] 4Z+0
8: unsigned x;assume(x>=4294967290u);assume(x<=4294967295u);int y=x; -> x [4294967290,4294967295] 1Z+0, y [-6,-1] 1Z+0
8: unsigned long x;assume(x>=9223372036854775800u);assume(x<=9223372036854775815u);long y=x; -> x [9223372036854775800,9223372036854775815] 1Z+0, y [-9223372036854775808,9223372036854775807] 1Z+0
# narrow types are computed as int
8: char x;assume(x>=100);assume(x<=127);x=x+28; -> x [-128,-101] 1Z+0
8: signed char x;assume(x>=-128);assume(x<=-120);x=x*2; -> x [0,16] 2Z+0
8: short x;assume(x>=-32768);assume(x<=-32760);x=x-1; -> x [-32768,32767] 1Z+0
8: short x;assume(x>=32000);assume(x<=32767);x=x+1; -> x [-32768,32767] 1Z+0
8: unsigned char x;assume(x>=0);assume(x<=9);int y=x-10; -> x [0,9] 1Z+0, y [-10,-1] 1Z+0
8: unsigned char x;assume(x>=3);assume(x<=200);int y=x*x; -> x [3,200] 1Z+0, y [9,40000] 1Z+0
8: unsigned short x;assume(x>=60000);assume(x<=65535);int y=x*x; -> unreachable
8: short x;assume(x>=-7);assume(x<=7);int y=x<<3; -> x [-7,7] 1Z+0, y [0,56] 8Z+0
# sums and products of signed numbers, cut at the ends of the type
8: int x;assume(x>=2147483600);assume(x<=2147483647);x=x+10; -> x [2147483610,2147483647] 1Z+0
8: int x;assume(x>=2147483600);assume(x<=2147483647);x=x+100; -> unreachable
8: int x;assume(x>=-2147483647);assume(x<=5);x=x-2; -> x [-2147483648,3] 1Z+0
8: int x;x=-x; -> x [-2147483647,2147483647] 1Z+0
8: long x;assume(x>=-9223372036854775807);assume(x<=0);x=x-2; -> x [-9223372036854775808,-2] 1Z+0
0: int x;assume(x>=-3);assume(x<=4);int y;assume(y>=-5);assume(y<=2);x=x*y; -> x [-20,15] 1Z+0, y [-5,2] 1Z+0
8: long x;assume(x>=3037000499);assume(x<=3037000500);x=x*x; -> x [9223372030926249001,9223372036854775807] 1Z+0
# shifts
8: int x;assume(x>=-5);assume(x<=3);x=x<<2; -> x [0,12] 4Z+0
8: int x;assume(x>=-5);assume(x<=3);x=x<<0; -> x [0,3] 1Z+0
8: int x;assume(x>=-5);assume(x<=3);x=x<<31; -> x [0,0] 0Z+0
8: int x;assume(x>=-5);assume(x<=3);x=x<<32; -> unreachable
8: int x;assume(x>=-5);assume(x<=3);x=x<<-1; -> unreachable
8: int x;assume(x>=-9);assume(x<=-3);x=x<<1; -> unreachable
0: int x;assume(x>=1);assume(x<=3);int y;assume(y>=1);assume(y<=4);x=x<<y; -> x [2,48] 1Z+0, y [1,4] 1Z+0
0: int x;assume(x>=1);assume(x<=3);int y;assume(y>=30);assume(y<=40);x=x<<y; -> x [1073741824,2147483647] 1Z+0, y [30,40] 1Z+0
0: int x;assume(x>=1);assume(x<=3);int y;assume(y>=-4);assume(y<=1);x=x<<y; -> x [1,6] 1Z+0, y [-4,1] 1Z+0
8: unsigned x;assume(x>=1u);assume(x<=4294967295u);x=x<<31; -> x [0,2147483648] 2147483648Z+0
8: unsigned long x;assume(x>=1u);assume(x<=5u);x=x<<63; -> x [0,9223372036854775808] 9223372036854775808Z+0
8: int x;assume(x>=-5);assume(x<=3);x=x>>1; -> x [-3,1] 1Z+0
8: int x;assume(x>=-5);assume(x<=3);x=x>>31; -> x [-1,0] 1Z+0
8: int x;assume(x>=-5);assume(x<=3);x=x>>32; -> unreachable
0: int x;assume(x>=-100);assume(x<=77);int y;assume(y>=2);assume(y<=40);x=x>>y; -> x [-25,19] 1Z+0, y [2,40] 1Z+0
8: unsigned x;assume(x>=5u);assume(x<=4294967295u);x=x>>3; -> x [0,536870911] 1Z+0
# bit operators
8: int x;assume(x>=3);assume(x<=12);x=x&6; -> x [0,6] 1Z+0
8: int x;assume(x>=-3);assume(x<=12);x=x&6; -> x [0,6] 1Z+0
8: int x;assume(x>=-3);assume(x<=12);x=x&-4; -> x [-2147483648,2147483647] 1Z+0
8: int x;assume(x>=3);assume(x<=12);x=x|16; -> x [0,31] 1Z+0
8: int x;assume(x>=-3);assume(x<=12);x=x|16; -> x [-2147483648,2147483647] 1Z+0
8: int x;assume(x>=3);assume(x<=12);x=x^5; -> x [0,15] 1Z+0
8: int x;assume(x>=0);assume(x<=0);int y;assume(y>=0);assume(y<=0);x=x^y; -> x [0,0] 0Z+0, y [0,0] 0Z+0
8: unsigned char x;assume(x>=0);assume(x<=200);x=x|1; -> x [0,255] 1Z+0
8: int x;assume(x>=-4);assume(x<=9);x=~x; -> x [-10,3] 1Z+0
8: int x;assume(x>=-4);assume(x<=9);x=3*x+1;x=~x; -> x [-29,10] 3Z+1
# quotients and rests with signs
8: int x;assume(x>=-7);assume(x<=7);x=x/2; -> x [-3,3] 1Z+0
8: int x;assume(x>=-7);assume(x<=7);x=x/-2; -> x [-3,3] 1Z+0
8: int x;assume(x>=-7);assume(x<=7);x=x/3; -> x [-2,2] 1Z+0
8: int x;assume(x>=-7);assume(x<=7);x=x/-3; -> x [-2,2] 1Z+0
8: int x;assume(x>=-7);assume(x<=-2);x=x/-3; -> x [0,2] 1Z+0
8: int x;assume(x>=2);assume(x<=9);x=x/-4; -> x [-2,0] 1Z+0
8: int x;assume(x>=1);assume(x<=9);x=x/0; -> unreachable
0: int x;assume(x>=-20);assume(x<=30);int y;assume(y>=-3);assume(y<=5);x=x/y; -> x [-30,30] 1Z+0, y [-3,5] 1Z+0
0: int x;assume(x>=-20);assume(x<=30);int y;assume(y>=0);assume(y<=5);x=x/y; -> x [-20,30] 1Z+0, y [0,5] 1Z+0
0: int x;assume(x>=-20);assume(x<=30);int y;assume(y>=-6);assume(y<=-2);x=x/y; -> x [-15,10] 1Z+0, y [-6,-2] 1Z+0
8: int x;x=x/-1; -> x [-2147483647,2147483647] 1Z+0
8: int x;assume(x<=-2147483648);x=x/-1; -> unreachable
8: unsigned x;assume(x>=10u);assume(x<=4294967295u);x=x/7; -> x [1,613566756] 1Z+0
8: int x;assume(x>=-9);assume(x<=9);x=12*x+6;x=x/3; -> x [-34,38] 4Z+2
8: int x;assume(x>=-9);assume(x<=9);x=12*x+6;x=x/4; -> x [-25,28] 1Z+0
8: int x;assume(x>=-9);assume(x<=9);x=12*x+6;x=x/-6; -> x [-19,17] 2Z+1
8: int x;assume(x>=-7);assume(x<=7);x=x%2; -> x [-1,1] 1Z+0
8: int x;assume(x>=-7);assume(x<=7);x=x%-2; -> x [-1,1] 1Z+0
8: int x;assume(x>=-7);assume(x<=7);x=x%3; -> x [-2,2] 1Z+0
8: int x;assume(x>=-7);assume(x<=7);x=x%-3; -> x [-2,2] 1Z+0
8: int x;assume(x>=-7);assume(x<=-2);x=x%-3; -> x [-2,0] 1Z+0
8: int x;assume(x>=2);assume(x<=9);x=x%-4; -> x [0,3] 1Z+0
8: int x;assume(x>=1);assume(x<=9);x=x%0; -> unreachable
0: int x;assume(x>=-20);assume(x<=30);int y;assume(y>=-3);assume(y<=5);x=x%y; -> x [-4,4] 1Z+0, y [-3,5] 1Z+0
0: int x;assume(x>=-20);assume(x<=30);int y;assume(y>=0);assume(y<=5);x=x%y; -> x [-4,4] 1Z+0, y [0,5] 1Z+0
0: int x;assume(x>=-20);assume(x<=30);int y;assume(y>=-6);assume(y<=-2);x=x%y; -> x [-5,5] 1Z+0, y [-6,-2] 1Z+0
8: int x;x=x%-1; -> x [0,0] 0Z+0
8: int x;assume(x<=-2147483648);x=x%-1; -> x [0,0] 0Z+0
8: unsigned x;assume(x>=10u);assume(x<=4294967295u);x=x%7; -> x [0,6] 1Z+0
8: int x;assume(x>=-9);assume(x<=9);x=12*x+6;x=x%3; -> x [0,0] 0Z+0
8: int x;assume(x>=-9);assume(x<=9);x=12*x+6;x=x%4; -> x [-2,2] 4Z+2
8: int x;assume(x>=-9);assume(x<=9);x=12*x+6;x=x%-6; -> x [0,0] 0Z+0
# products of unsigned numbers of 64 bits: below 2^127, and from there on, where the classes are lost
8: unsigned long x;assume(x>=0u);assume(x<=3u);x=x*18446744073709551615u; -> x [0,18446744073709551615] 1Z+0
8: unsigned long x;x=x*18446744073709551615u; -> x [0,18446744073709551615] 1Z+0
0: unsigned long x;x=3*(x%6148914691236517205u);unsigned long y=x*x; -> x [0,18446744073709551612] 3Z+0, y [0,18446744073709551615] 1Z+0
8: unsigned long x;assume(x>=0u);assume(x<=13043817825332782212u);x=x*x; -> x [0,18446744073709551615] 1Z+0
8: unsigned long x;assume(x>=0u);assume(x<=13043817825332782213u);x=x*x; -> x [0,18446744073709551615] 1Z+0
0: unsigned long x;x=(x%2)*13835058055282163712u;unsigned long y;y=(y%2)*13835058055282163712u;unsigned long z=x*y; -> x [0,13835058055282163712] 13835058055282163712Z+0, y [0,13835058055282163712] 13835058055282163712Z+0, z [0,18446744073709551615] 1Z+0
0: unsigned long x;unsigned long y;y=(y%2)*13835058055282163712u;unsigned long z=x*y; -> x [0,18446744073709551615] 1Z+0, y [0,13835058055282163712] 13835058055282163712Z+0, z [0,13835058055282163712] 4611686018427387904Z+0
0: unsigned long x;x=(x%2)*9223372036854775808u;unsigned long y=x*x; -> x [0,9223372036854775808] 9223372036854775808Z+0, y [0,0] 0Z+0
8: unsigned long x=18446744073709551615u;x=x*x; -> x [1,1] 0Z+1
# classes: a meet, a product, sums, and what a guard leaves
0: int x;int y;x=4*(x%100)+1;y=6*(y%100)+3;int z=x*y; -> x [-395,397] 4Z+1, y [-591,597] 6Z+3, z [-235815,237009] 6Z+3
0: int x;int y;x=4*(x%100)+1;y=6*(y%100)+3;int z=x+y; -> x [-395,397] 4Z+1, y [-591,597] 6Z+3, z [-986,994] 2Z+0
0: int x;int y;x=4*(x%100)+1;y=6*(y%100)+3;int z=y-x; -> x [-395,397] 4Z+1, y [-591,597] 6Z+3, z [-988,992] 2Z+0
0: int x;int y;x=4*(x%100)+1;y=6*(y%100)+3;assume(x==y); -> x [-387,393] 12Z+9, y [-387,393] 12Z+9
0: int x;int y;x=4*(x%100)+1;y=6*(y%100)+2;assume(x==y); -> unreachable
0: int x;x=4*(x%100)+1;assume(x>=2);assume(x<=12); -> x [5,9] 4Z+1
0: int x;x=4*(x%100)+1;assume(x>=2);assume(x<=8); -> x [5,5] 0Z+5
0: int x;x=4*(x%100)+1;assume(x>=2);assume(x<=4); -> unreachable
0: int x;x=4*(x%100)+1;int y=x==2; -> x [-395,397] 4Z+1, y [0,0] 0Z+0
0: int x;x=4*(x%100)+1;int y=x!=2; -> x [-395,397] 4Z+1, y [1,1] 0Z+1
# comparisons as numbers, and constants
8: int x;assume(x>=5);assume(x<=9);int y=x<10; -> x [5,9] 1Z+0, y [1,1] 0Z+1
8: int x;assume(x>=5);assume(x<=9);int y=x<9; -> x [5,9] 1Z+0, y [0,1] 1Z+0
8: int x;assume(x>=5);assume(x<=9);int y=x<5; -> x [5,9] 1Z+0, y [0,0] 0Z+0
8: int x;assume(x>=5);assume(x<=9);int y=x==4; -> x [5,9] 1Z+0, y [0,0] 0Z+0
8: int x;assume(x>=5);assume(x<=9);int y=x!=4; -> x [5,9] 1Z+0, y [1,1] 0Z+1
8: int x;assume(x>=5);assume(x<=9);int y=x>=5; -> x [5,9] 1Z+0, y [1,1] 0Z+1
8: int x;assume(x>=5);assume(x<=9);int y=!x; -> x [5,9] 1Z+0, y [0,0] 0Z+0
8: int x;assume(x>=5);assume(x<=9);int y=x==5; -> x [5,9] 1Z+0, y [0,1] 1Z+0
8: int x=5;int y=7*x-3;y=y/2; -> x [5,5] 0Z+5, y [16,16] 0Z+16
# both operands of a comparison are refined by the old value of the other
0: int x;assume(x>=0);assume(x<=10);int y;assume(y>=3);assume(y<=7);assume(x<y); -> x [0,6] 1Z+0, y [3,7] 1Z+0
0: int x;assume(x>=0);assume(x<=10);int y;assume(y>=3);assume(y<=7);assume(x<=y); -> x [0,7] 1Z+0, y [3,7] 1Z+0
0: int x;assume(x>=0);assume(x<=10);int y;assume(y>=3);assume(y<=7);assume(x>y); -> x [4,10] 1Z+0, y [3,7] 1Z+0
0: int x;assume(x>=0);assume(x<=10);int y;assume(y>=3);assume(y<=7);assume(x>=y); -> x [3,10] 1Z+0, y [3,7] 1Z+0
0: int x;assume(x>=0);assume(x<=10);int y;assume(y>=3);assume(y<=7);assume(x==y); -> x [3,7] 1Z+0, y [3,7] 1Z+0
0: int x;assume(x>=0);assume(x<=10);int y;assume(y>=3);assume(y<=7);assume(x!=y); -> x [0,10] 1Z+0, y [3,7] 1Z+0
0: int x;assume(x>=0);assume(x<=10);assume(x<x); -> x [1,9] 1Z+0
0: int x;assume(x>=0);assume(x<=10);assume(x<=x); -> x [0,10] 1Z+0
0: int x;assume(x>=0);assume(x<=10);assume(x>x); -> x [1,9] 1Z+0
0: int x;assume(x>=0);assume(x<=10);assume(x>=x); -> x [0,10] 1Z+0
0: int x;assume(x>=0);assume(x<=10);assume(x==x); -> x [0,10] 1Z+0
0: int x;assume(x>=0);assume(x<=10);assume(x!=x); -> x [0,10] 1Z+0
8: int x;assume(x>=0);assume(x<=10);assume(x!=0);assume(x!=10);assume(x!=5); -> x [1,9] 1Z+0
8: int x;assume(x>=0);assume(x<=10);assume(!(x<4));assume(!!(x<8)); -> x [4,7] 1Z+0
8: int x;assume(x>=-3);assume(x<=3);assume(x); -> x [-3,3] 1Z+0
8: int x;assume(x>=0);assume(x<=3);assume(x); -> x [1,3] 1Z+0
8: int x;assume(x>=0);assume(x<=3);assume(!x); -> x [0,0] 0Z+0
8: unsigned x;assume(x>=0u);assume(x<=10u);assume(x-1<5); -> x [0,10] 1Z+0
8: unsigned char c;assume(c>=0);assume(c<=255);assume(c>250); -> c [251,255] 1Z+0
8: int x;assume(x>=-5);assume(x<=5);assume(x<3u); -> x [-5,5] 1Z+0
# assertions go on where they hold
8: int x;assume(x>=0);assume(x<=10);assert(x<5); -> x [0,4] 1Z+0
8: int x;assume(x>=0);assume(x<=10);assert(x); -> x [1,10] 1Z+0
8: int x;assume(x>=0);assume(x<=10);assert(!x); -> x [0,0] 0Z+0
8: int x;assume(x>=0);assume(x<=10);assert(x>20); -> unreachable
8: int x;assume(x>=0);assume(x<=10);int y;assume(y>=0);assume(y<=10);assert(x+y<=4); -> x [0,4] 1Z+0, y [0,4] 1Z+0, x + y <= 4
# larger arrays: a value for all elements, to which a store is added; an index that misses
8: int a[9]={4,6};int x=a[1]; -> a[] [0,6] 2Z+0, x [0,6] 2Z+0
8: int a[9]={9,21};a[2]=3;int x=a[0]; -> a[] [0,21] 3Z+0, x [0,21] 3Z+0
8: int a[9];int x=a[2]; -> a[] [-2147483648,2147483647] 1Z+0, x [-2147483648,2147483647] 1Z+0
8: int a[9]={1};int x=a[9]; -> unreachable
8: int a[9]={1};int x=a[-1]; -> unreachable
8: int a[9]={1};int i;assume(i>=-4);assume(i<=7);int x=a[i]; -> a[] [0,1] 1Z+0, i [-4,7] 1Z+0, x [0,1] 1Z+0
8: int a[9]={1};int i;assume(i>=9);assume(i<=12);int x=a[i]; -> unreachable
8: int a[9]={1};int i;assume(i>=-4);assume(i<=7);a[i]=5; -> a[] [0,5] 1Z+0, i [-4,7] 1Z+0
8: int a[9]={1};int i;assume(i>=-4);assume(i<=-1);a[i]=5; -> unreachable
8: int a[9]={1};a[0]=1/0; -> unreachable
8: int a[9]={1};int x;a[0]=x%3;x=a[1]; -> a[] [-2,2] 1Z+0, x [-2,2] 1Z+0
8: unsigned char a[9]={1};int x;a[1]=x; -> a[] [0,255] 1Z+0, x [-2147483648,2147483647] 1Z+0
8: unsigned char a[9]={7};a[0]=300;int x=a[1]; -> a[] [0,44] 1Z+0, x [0,44] 1Z+0
8: int a[9]={1};int x;assume(x>=0);assume(x<=9);int y;assume(y>=0);assume(y<=9);assume(x<y);x=a[0]; -> a[] [0,1] 1Z+0, x [0,1] 1Z+0, y [1,9] 1Z+0
8: int a[9]={1};int x;assume(x>=0);assume(x<=9);int y;assume(y>=0);assume(y<=9);assume(x<y);a[0]=x; -> a[] [0,8] 1Z+0, x [0,8] 1Z+0, y [1,9] 1Z+0, x - y <= -1
# arrays of at most eight elements: a value for each, of which that of the first is printed
8: int a[3]={4,6};int x=a[1]; -> a[0] [4,4] 0Z+4, x [6,6] 0Z+6
8: int a[3]={9,21};a[2]=3;int x=a[2]; -> a[0] [9,9] 0Z+9, x [3,3] 0Z+3
8: int a[8];a[7]=5;int x=a[7]; -> a[0] [-2147483648,2147483647] 1Z+0, x [5,5] 0Z+5
8: int a[3]={1,7,9};int i;assume(i>=-4);assume(i<=1);int x=a[i]; -> a[0] [1,1] 0Z+1, i [-4,1] 1Z+0, x [1,7] 6Z+1
8: int a[5]={1,2,3,4,5};int i;assume(i>=0);assume(i<=2);int x=a[2*i]; -> a[0] [1,1] 0Z+1, i [0,2] 1Z+0, x [1,5] 2Z+1
8: int a[2]={1,5};int i;assume(i>=0);assume(i<=1);a[i]=7;int x=a[1]; -> a[0] [1,7] 6Z+1, i [0,1] 1Z+0, x [5,7] 2Z+1
8: int a[2]={1,5};int i;assume(i>=1);assume(i<=4);a[i]=7;int x=a[0]; -> a[0] [1,1] 0Z+1, i [1,4] 1Z+0, x [1,1] 0Z+1
8: int a[4]={1};int i;assume(i>=0);assume(i<=1);int x=a[8*i-1]; -> unreachable
8: int a[4]={1};int i;assume(i>=0);assume(i<=1);a[8*i-1]=2; -> unreachable
8: int a[1]={3};a[0]=4;int x=a[0]; -> a[0] [4,4] 0Z+4, x [4,4] 0Z+4
8: int a[2]={3};int x=a[2]; -> unreachable
# octagons: what intervals alone can't decide
8: int x;assume(x>=0);assume(x<=10);int y;assume(y>=0);assume(y<=10);assume(x<y); -> x [0,9] 1Z+0, y [1,10] 1Z+0, x - y <= -1
8: int x;assume(x>=0);assume(x<=10);int y;assume(y>=0);assume(y<=10);assume(x<y);assume(y<x); -> unreachable
8: int x;assume(x>=0);assume(x<=10);int y;assume(y>=0);assume(y<=10);assume(x<y);assume(y<=x+1); -> x [0,9] 1Z+0, y [1,10] 1Z+0, x - y <= -1, y - x <= 1
8: int x;assume(x>=0);assume(x<=10);int y;assume(y>=0);assume(y<=10);assume(x+y<=5);assume(x-y>=2); -> x [2,5] 1Z+0, y [0,1] 1Z+0, y - x <= -2, x + y <= 5
8: int x;assume(x>=0);assume(x<=10);int y;assume(y>=0);assume(y<=10);assume(x==y);assume(x+y==7); -> unreachable
8: int x;assume(x>=0);assume(x<=10);int y;assume(y>=0);assume(y<=10);assume(x==y);assume(x!=y); -> x [0,10] 1Z+0, y [0,10] 1Z+0, x - y <= 0, y - x <= 0
0: int x;assume(x>=0);assume(x<=10);int y;assume(y>=0);assume(y<=10);assume(x+y<=5); -> x [0,10] 1Z+0, y [0,10] 1Z+0
0: int x;assume(x>=0);assume(x<=10);int y;assume(y>=0);assume(y<=10);assume(x<y);assume(y<x); -> x [2,9] 1Z+0, y [1,8] 1Z+0
8: int x;assume(x>=0);assume(x<=10);int y;assume(y>=0);assume(y<=10);int z;assume(z>=0);assume(z<=10);assume(x<y);assume(y<z); -> x [0,8] 1Z+0, y [1,9] 1Z+0, z [2,10] 1Z+0, x - y <= -1, x - z <= -2, y - z <= -1
8: int x;assume(x>=0);assume(x<=10);int y;assume(y>=0);assume(y<=10);int z;assume(z>=0);assume(z<=10);assume(x<y);assume(y<z);assume(z<=x+1); -> unreachable
8: int x;assume(x>=0);assume(x<=10);int y;assume(y>=0);assume(y<=10);int z;assume(z>=0);assume(z<=10);assume(x+y<=z); -> x [0,10] 1Z+0, y [0,10] 1Z+0, z [0,10] 1Z+0
# octagons: assignments
8: int x;assume(x>=0);assume(x<=10);int y;assume(y>=0);assume(y<=10);assume(x<y);x=x+1; -> x [1,10] 1Z+0, y [1,10] 1Z+0, x - y <= 0
8: int x;assume(x>=0);assume(x<=10);int y;assume(y>=0);assume(y<=10);assume(x<y);x=-x; -> x [-9,0] 1Z+0, y [1,10] 1Z+0, -x - y <= -1
8: int x;assume(x>=0);assume(x<=10);int y;assume(y>=0);assume(y<=10);assume(x<y);x=-x+3; -> x [-6,3] 1Z+0, y [1,10] 1Z+0, -x - y <= -4
8: int x;assume(x>=0);assume(x<=10);int y;assume(y>=0);assume(y<=10);assume(x<y);x=3-x; -> x [-6,3] 1Z+0, y [1,10] 1Z+0, -x - y <= -4
8: int x;assume(x>=0);assume(x<=10);int y;assume(y>=0);assume(y<=10);assume(x<y);y=x; -> x [0,9] 1Z+0, y [0,9] 1Z+0, x - y <= 0, y - x <= 0
8: int x;assume(x>=0);assume(x<=10);int y;assume(y>=0);assume(y<=10);assume(x<y);y=x-2; -> x [0,9] 1Z+0, y [-2,7] 1Z+0, x - y <= 2, y - x <= -2
8: int x;assume(x>=0);assume(x<=10);int y;assume(y>=0);assume(y<=10);assume(x<y);y=-x+4; -> x [0,9] 1Z+0, y [-5,4] 1Z+0, x + y <= 4, -x - y <= -4
8: int x;assume(x>=0);assume(x<=10);int y;assume(y>=0);assume(y<=10);assume(x<y);y=x+x; -> x [0,9] 1Z+0, y [0,18] 1Z+0
8: int x;assume(x>=0);assume(x<=10);int y;assume(y>=0);assume(y<=10);assume(x<y);x=7; -> x [7,7] 0Z+7, y [1,10] 1Z+0
8: int x;assume(x>=0);assume(x<=10);int y;assume(y>=0);assume(y<=10);assume(x<y);x=x+y-y; -> x [0,9] 1Z+0, y [1,10] 1Z+0, x - y <= -1
8: int x;assume(x>=0);assume(x<=10);int y;assume(y>=0);assume(y<=10);assume(x<y);x=y+1-y; -> x [-8,10] 1Z+0, y [1,10] 1Z+0
8: int x;assume(x>=0);assume(x<=10);int y;assume(y>=0);assume(y<=10);assume(x<y);x=x*2; -> x [0,18] 2Z+0, y [1,10] 1Z+0
8: int x;assume(x>=0);assume(x<=10);int y;assume(y>=0);assume(y<=10);assume(x<y);int z=y-x; -> x [0,9] 1Z+0, y [1,10] 1Z+0, z [-8,10] 1Z+0, x - y <= -1
8: int x;assume(x>=0);assume(x<=10);int y;assume(y>=0);assume(y<=10);assume(x<y);int z=y-x;assume(z<3); -> x [0,9] 1Z+0, y [1,10] 1Z+0, z [-8,2] 1Z+0, x - y <= -1
8: int x;assume(x>=0);assume(x<=10);int y;assume(y>=0);assume(y<=10);assume(x<y);int z;x=z; -> x [-2147483648,2147483647] 1Z+0, y [1,10] 1Z+0, z [-2147483648,2147483647] 1Z+0
8: int x;assume(x>=0);assume(x<=10);unsigned char y;assume(y==x);x=y; -> x [0,10] 1Z+0, y [0,10] 1Z+0, x - y <= 0, y - x <= 0
8: int x;assume(x>=-3);assume(x<=10);unsigned y;assume(y<=20u);y=x; -> x [-3,10] 1Z+0, y [0,4294967295] 1Z+0
8: int x;assume(x>=0);assume(x<=10);unsigned y;assume(y<=20u);y=x; -> x [0,10] 1Z+0, y [0,10] 1Z+0, x - y <= 0, y - x <= 0
8: unsigned x;assume(x>=0u);assume(x<=10u);unsigned y;assume(y>=0u);assume(y<=20u);assume(x<y);y=x-1u; -> x [0,10] 1Z+0, y [0,4294967295] 1Z+0
8: unsigned x;assume(x>=1u);assume(x<=10u);unsigned y;assume(y>=0u);assume(y<=20u);assume(x<y);y=x-1u; -> x [1,10] 1Z+0, y [0,9] 1Z+0, x - y <= 1, y - x <= -1
8: long x;assume(x>=0);assume(x<=10);int y;assume(y<=x);assume(y>=0);x=y+5; -> x [5,15] 1Z+0, y [0,10] 1Z+0, x - y <= 5, y - x <= -5
8: int x;assume(x>=2147483640);assume(x<=2147483647);int y;assume(y<=x);y=x+1; -> x [2147483640,2147483646] 1Z+0, y [2147483641,2147483647] 1Z+0, x - y <= -1, y - x <= 1
";

// The text of a main function.
fn text_of(alloc: Global, body: &str) -> Result<String, Fail> {
    let mut text = String::from_str(
        alloc,
        "void __VERIFIER_assume(int);void __pikos_assert(int);int main(void){",
    )?;
    for statement in body.split_inclusive(';') {
        if statement.starts_with("assume") {
            text.push_str("__VERIFIER_")?;
        }
        if statement.starts_with("assert") {
            text.push_str("__pikos_")?;
        }
        text.push_str(statement)?;
    }
    text.push_str("return 0;}")?;
    Ok(text)
}

fn known_after(alloc: Global, graph: &Graph, oct: usize) -> Result<String, Fail>
    requires { oct < 100 }
{
    let frame = frame(alloc, graph, oct)?;
    let state = along(alloc, graph, oct, &frame)?;
    Ok(print(alloc, graph, &frame, &state)?)
}

fn row_holds(rt: &impl Abort, alloc: Global, row: &str) -> Result<(), Fail> {
    let (oct, rest) = row.split_once(": ").ok_or("no number")?;
    let (body, expected) = rest.split_once(" -> ").ok_or("no values")?;
    let text = text_of(alloc, body)?;
    let graph = graph_of(alloc, text.as_str())?.ok_or("limit")?;
    let found = known_after(alloc, &graph, if oct == "0" { 0 } else { 8 })?;
    assert!(rt; found.as_str() == expected, "{body} -> {found}");
    Ok(())
}

#[test]
fn rows_hold(rt: HostRuntime) -> Result<(), Fail> {
    for row in ROWS.lines() {
        if !row.is_empty() && !row.starts_with('#') {
            row_holds(&rt, rt.alloc(), row)?;
        }
    }
    Ok(())
}
