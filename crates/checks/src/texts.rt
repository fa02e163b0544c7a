// Certificates of each kind, read and written.
use cert_text::{read_certificate, write_certificate};
use std::test::Fail;

#[test]
fn certificates_are_written_as_they_are_read(rt: HostRuntime) -> Result<(), Fail> {
    let rows: [(&[u8], &[u8]); 4] = [
        (
            b"bistellar 01 sphere\r\n\nflips 01\n 2 1 | 4 3 \n",
            b"bistellar 1 sphere\nflips 1\n1 2 | 3 4\n",
        ),
        (
            b"bistellar 1 equal\nK:=[[8,7],[9,8],\n[7,9]] ; flips 1\n1 | 2 4\nmap 2\n4 9\n2 7",
            b"bistellar 1 equal\n[[7,8],[7,9],[8,9]]\nflips 1\n1 | 2 4\nmap 2\n2 7\n4 9\n",
        ),
        (
            b"bistellar 1 manifold\nvertices 2\nvertex 9\nflips 0\nvertex 1\nflips 1\n1|2\n",
            b"",
        ),
        (
            b"bistellar 1 manifold\nvertices 2\nvertex 9\nflips 0\nvertex 1\nflips 1\n1 | 2",
            b"bistellar 1 manifold\nvertices 2\nvertex 9\nflips 0\nvertex 1\nflips 1\n1 | 2\n",
        ),
    ];
    for (text, canonical) in rows {
        match read_certificate(rt.alloc(), text, 0) {
            Ok(certificate) => {
                let mut out = Vec::new(rt.alloc());
                write_certificate(&certificate, &mut out)?;
                assert!(rt; out.as_slice() == canonical);
            }
            Err(_) => assert!(rt; canonical.is_empty()),
        }
    }
    Ok(())
}
