use ras_evidence::read_evidence;
use ras_writing::write_evidence;
use std::alloc::Global;

/// Whether the text is read and written again.
fn comes_back(alloc: Global, text: &[u8]) -> bool {
    match read_evidence(alloc, text) {
        Ok(read) => match write_evidence(alloc, &read.evidence, read.journal.as_ref()) {
            Ok(bytes) => bytes.as_slice() == text,
            Err(_) => false,
        },
        Err(_) => false,
    }
}

#[test]
fn what_is_read_is_written_again(rt: HostRuntime) {
    let texts = [
        b"evidence 1 safe\nformulas 1\ncube 1 0 1 r0.1!=r0.0/0\ntrees 2\ntree leaf\ntree split 0 1 0 1 leaf\nend\n".as_slice(),
        b"evidence 1 unsafe\nsizes 2 2 1\ntables 1\ntable 1 1\nconstants 0\nvars 0\nrelations 1\nrows 1\nrow 2 0 0\nsteps 1\nstep 0 1 0 2 1 2\nend\n".as_slice(),
        b"evidence 1 unknown\nbudget 1\ncube 0 1 v0=c2\nsizes 1 3\ntables 0\nconstants 3 1 2 3\nvars 1 3\nrelations 0\nsteps 0\ncube 0 1 v0=u1\nsizes 1 30\ntables 0\nconstants 0\nvars 1 2\nrelations 0\nsteps 0\nend\n".as_slice(),
    ];
    let journals = [
        b"evidence 1 safe\nformulas 0\ntrees 0\nend\njournal 0\n".as_slice(),
        b"evidence 1 safe\nformulas 0\ntrees 0\nend\njournal 9\nclaim 0\nadmit goal 65535 cube 0 1 v0!=u0\nskip step 3 7 cube 1 0 1 r0.1!=r0.0/0 reasons 2 4 5\ndrop 1 4294967295\ndone 0\nback 2\nhit goal 0 cube 0 0\nspill step 4294967295 65535 cube 0 1 v0=c2\nidle\n".as_slice(),
    ];
    for text in texts {
        assert!(rt; comes_back(rt.alloc(), text));
    }
    for text in journals {
        assert!(rt; comes_back(rt.alloc(), text));
    }
}
