//! Profiles and a session that several tests run.
/// Three groups of one array of 32 registers and one hash unit each.
pub const THREE_GROUPS: &str = "version = 1\ngroups = 3\ncmus = 1\nunits = 1\nlog_registers = 5\n";

/// A profile of one group, with one array of 32 registers and one hash unit.
pub const ONE_ARRAY: &str = "version = 1\ngroups = 1\ncmus = 1\nunits = 1\nlog_registers = 5\n";

/// A session with tasks of three kinds, one of which is resized.
pub const THREE_TASKS: &str =
    "add flows cms 3 key=src_ip,dst_ip,src_port,dst_port,proto attr=packets filter=proto:6 memory=256\n\
add inner bloom 2 key=src_ip attr=flow filter=src_ip:10.0.0.0/8 memory=64\n\
add dests hll 1 key=dst_ip attr=flow filter=all memory=64\n\
packets 2\n\
resize flows memory=512\n\
run\n\
read flows\n\
frozen flows\n\
query inner src_ip:10.0.0.1\n\
query inner src_ip:10.0.0.2\n\
card dests\n\
show\n";

/// What it writes where the capture has three packets from 10.0.0.1.
pub const THREE_TASKS_OUT: &str = "added flows\n\
added inner\n\
added dests\n\
packets 2\n\
resized flows\n\
packets 1\n\
read flows rows 3 size 512 start 0\n\
cell 0 49 1\n\
cell 1 428 1\n\
cell 2 207 1\n\
end\n\
frozen flows rows 3 size 256 start 0\n\
cell 0 24 2\n\
cell 1 214 2\n\
cell 2 103 2\n\
end\n\
query inner yes\n\
query inner no\n\
card dests zeros 63 z 543313362944 raw 45\n\
tasks 3\n\
task flows cms 3 key=src_ip,dst_ip,src_port,dst_port,proto attr=packets filter=proto:6 memory=512\n\
row 0 group 0 cmu 0 base 512 size 512 keys 0 frozen base 0 size 256\n\
row 1 group 0 cmu 1 base 512 size 512 keys 0 frozen base 0 size 256\n\
row 2 group 0 cmu 2 base 512 size 512 keys 0 frozen base 0 size 256\n\
task inner bloom 2 key=src_ip attr=flow filter=src_ip:10.0.0.0/8 memory=64\n\
row 0 group 1 cmu 0 base 0 size 64 keys 0\n\
row 1 group 1 cmu 1 base 0 size 64 keys 0\n\
task dests hll 1 key=dst_ip attr=flow filter=all memory=64\n\
row 0 group 1 cmu 2 base 0 size 64 keys 1\n\
end\n";
