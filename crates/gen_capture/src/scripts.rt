//! The script that goes with the capture.

pub(crate) const SCRIPT: &[u8; 377] = b"\
add load sumax_sum 3 key=src_ip attr=bytes filter=all memory=128
add flows cms 3 key=src_ip,dst_ip,src_port,dst_port,proto attr=packets filter=proto:6 memory=256
add dests hll 1 key=dst_ip attr=flow filter=all memory=64
add sizes mrac 1 key=src_ip attr=packets filter=all memory=32
run
query load src_ip:10.0.0.20
card dests
dist sizes
resize sizes memory=64
remove flows
stat
";
